// Membership of a list of texts.
ghost use Rattle.std.specs.Prelude.{◌≡◌, map};
ghost use Rattle.std.specs.List.{list_any};
ghost use Rattle.std.specs.Str.{bytes_eq};
ghost use Rattle.mw_base.specs.Membership.{is_one_of};

/// Whether one of these texts, seen where it stands, is the text.
fn any_is(texts: &[&[u8]], text: &[u8]) -> bool
    ensures { result ≡ list_any (λ other. bytes_eq text.now other.now) texts.now }
{
    texts.iter().any(|other| text == *other)
}

/// Whether the text is one of these.
pub fn is_one_of(texts: &[&[u8]], text: &[u8]) -> bool
    ensures { result ≡ is_one_of (map (λ other. other.now) texts.now) text.now }
{
    any_is(texts, text)
}
