// Control points.

/// What drives a control point.
#[derive(Clone, Copy, Debug, PartialEq, Eq)]
pub enum Control {
    /// The field with this number.
    Field(u8),
    /// This constant.
    Fixed(u32),
}

/// What drives each control point of a board. A point that takes a number has the bits that are said here, one where
/// none are said; a point that chooses has the number of an entry of its list, and past the list's end it
/// chooses entry 0.
#[derive(Clone, Copy, Debug, PartialEq, Eq)]
pub struct Points {
    /// The Am2901's source, 3 bits.
    pub alu_source: Control,
    /// The Am2901's function, 3 bits.
    pub alu_function: Control,
    /// The Am2901's destination, 3 bits.
    pub alu_destination: Control,
    /// The register that A reads, 4 bits.
    pub a_address: Control,
    /// The register that B reads, and that the edge writes, 4 bits.
    pub b_address: Control,
    /// The sequencer's instruction, 4 bits.
    pub sequencer: Control,
    /// The branch address, 12 bits.
    pub branch: Control,
    /// The test passes whatever its bit is.
    pub test_disable: Control,
    /// The test reads the opposite of its bit.
    pub polarity: Control,
    /// The carry into the microprogram counter.
    pub ci: Control,
    /// The register/counter is loaded from the direct address.
    pub rld: Control,
    /// The address register takes the low bits of Y.
    pub mar_load: Control,
    /// The instruction register takes Y.
    pub ir_load: Control,
    /// Y is written to memory at the address register.
    pub memory_write: Control,
    /// Y is put out.
    pub out: Control,
    /// Chooses the carry in.
    pub carry_in: Control,
    /// Chooses the source of D.
    pub d: Control,
    /// Chooses the bit that the test reads.
    pub condition: Control,
    /// Chooses the bits at the ends of both shifts.
    pub link: Control,
}

impl Points {
    /// Where nothing drives a point: 0, and 1 into the microprogram counter.
    pub const DEFAULT: Points = Points {
        alu_source: Control::Fixed(0),
        alu_function: Control::Fixed(0),
        alu_destination: Control::Fixed(0),
        a_address: Control::Fixed(0),
        b_address: Control::Fixed(0),
        sequencer: Control::Fixed(0),
        branch: Control::Fixed(0),
        test_disable: Control::Fixed(0),
        polarity: Control::Fixed(0),
        ci: Control::Fixed(1),
        rld: Control::Fixed(0),
        mar_load: Control::Fixed(0),
        ir_load: Control::Fixed(0),
        memory_write: Control::Fixed(0),
        out: Control::Fixed(0),
        carry_in: Control::Fixed(0),
        d: Control::Fixed(0),
        condition: Control::Fixed(0),
        link: Control::Fixed(0),
    };
}
