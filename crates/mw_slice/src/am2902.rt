// The lookahead carry generator.
ghost use Rattle.std.specs.Prelude.{◌≡◌};
ghost use Rattle.mw_slice.specs.Lookahead.{lookahead_of, carry_out_of};

/// What an Am2902 answers, as logic values: the carries into the second, third and fourth of what it serves, and G and
/// P of all four.
#[derive(Clone, Copy, Debug, PartialEq, Eq)]
pub struct Look {
    /// The carry into the second.
    pub x: bool,
    /// The carry into the third.
    pub y: bool,
    /// The carry into the fourth.
    pub z: bool,
    /// The four generate a carry.
    pub g: bool,
    /// The four propagate a carry.
    pub p: bool,
}

/// The carries looked ahead over four slices, or four groups, from their G and P and the carry into the first.
#[tactic(auto, unfolding(crate::specs::Lookahead::lookahead_of))]
pub fn lookahead(g: [bool; 4], p: [bool; 4], cin: bool) -> Look
    ensures { result ≡ lookahead_of g p cin }
{
    Look {
        x: g[0] | p[0] & cin,
        y: g[1] | p[1] & g[0] | p[1] & p[0] & cin,
        z: g[2] | p[2] & g[1] | p[2] & p[1] & g[0] | p[2] & p[1] & p[0] & cin,
        g: g[3] | p[3] & g[2] | p[3] & p[2] & g[1] | p[3] & p[2] & p[1] & g[0],
        p: p[3] & p[2] & p[1] & p[0],
    }
}

/// The carry out of the four.
pub fn carry_out(look: Look, cin: bool) -> bool
    ensures { result ≡ carry_out_of look cin }
{
    look.g | look.p & cin
}
