// Why a reader refuses a file.
use mw_base::TextFault;
use mw_boardfile::KeyFault;

/// The first fault that a reader finds in a file.
#[derive(Drop)]
pub(crate) enum Fault {
    /// A text's, at a line and a column.
    Text(TextFault),
    /// A board file's, at a key.
    Board(KeyFault),
}

impl From<TextFault> for Fault {
    ghost use Rattle.std.specs.Prelude.{◌≡◌};
    ghost use Rattle.mw_top.specs.declared.fault.Fault.TheVariants.{Text};

    ghost from_gives = { λ fault seen. seen ≡ Text fault };

    fn from(fault: TextFault) -> Fault {
        Fault::Text(fault)
    }
}

impl From<KeyFault> for Fault {
    ghost use Rattle.std.specs.Prelude.{◌≡◌};
    ghost use Rattle.mw_top.specs.declared.fault.Fault.TheVariants.{Board};

    ghost from_gives = { λ fault seen. seen ≡ Board fault };

    fn from(fault: KeyFault) -> Fault {
        Fault::Board(fault)
    }
}
