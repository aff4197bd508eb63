// The table of the control points.
ghost use Rattle.std.specs.Prelude.{◌≡◌, List, Ok};
ghost use Rattle.mw_board.specs.declared.field.NamedField.{NamedField};
ghost use Rattle.mw_board.specs.Points.{name_of, bits_of, driver_of, with_driver};
ghost use Rattle.mw_board.specs.Rules.{driver_rule, DriversKeep};

use crate::control::{Control, Points};

/// A control point.
#[derive(Clone, Copy, Debug, PartialEq, Eq)]
pub enum Point {
    /// The Am2901's source.
    AluSource,
    /// The Am2901's function.
    AluFunction,
    /// The Am2901's destination.
    AluDestination,
    /// The register that A reads.
    AAddress,
    /// The register that B reads, and that the edge writes.
    BAddress,
    /// The sequencer's instruction.
    Sequencer,
    /// The branch address.
    Branch,
    /// The test passes whatever its bit is.
    TestDisable,
    /// The test reads the opposite of its bit.
    Polarity,
    /// The carry into the microprogram counter.
    Ci,
    /// The register/counter is loaded from the direct address.
    Rld,
    /// The address register takes the low bits of Y.
    MarLoad,
    /// The instruction register takes Y.
    IrLoad,
    /// Y is written to memory at the address register.
    MemoryWrite,
    /// Y is put out.
    Out,
    /// Chooses the carry in.
    CarryIn,
    /// Chooses the source of D.
    D,
    /// Chooses the bit that the test reads.
    Condition,
    /// Chooses the bits at the ends of both shifts.
    Link,
}

impl Point {
    /// All control points, in the order of their keys in a board file.
    pub const ALL: [Point; 19] = [
        Point::AluSource,
        Point::AluFunction,
        Point::AluDestination,
        Point::AAddress,
        Point::BAddress,
        Point::Sequencer,
        Point::Branch,
        Point::TestDisable,
        Point::Polarity,
        Point::Ci,
        Point::Rld,
        Point::MarLoad,
        Point::IrLoad,
        Point::MemoryWrite,
        Point::Out,
        Point::CarryIn,
        Point::D,
        Point::Condition,
        Point::Link,
    ];

    /// The name of its key under `control`.
    pub fn name(self) -> &'static str
        ensures { result.now ≡ name_of self }
    {
        match self {
            Point::AluSource => "alu_source",
            Point::AluFunction => "alu_function",
            Point::AluDestination => "alu_destination",
            Point::AAddress => "a_address",
            Point::BAddress => "b_address",
            Point::Sequencer => "sequencer",
            Point::Branch => "branch",
            Point::TestDisable => "test_disable",
            Point::Polarity => "polarity",
            Point::Ci => "ci",
            Point::Rld => "rld",
            Point::MarLoad => "mar_load",
            Point::IrLoad => "ir_load",
            Point::MemoryWrite => "memory_write",
            Point::Out => "out",
            Point::CarryIn => "carry_in",
            Point::D => "d",
            Point::Condition => "condition",
            Point::Link => "link",
        }
    }

    /// How many bits the number has that it takes; none where it chooses from a list.
    pub fn bits(self) -> Option<u8>
        ensures { result ≡ bits_of self }
    {
        match self {
            Point::AluSource | Point::AluFunction | Point::AluDestination => Some(3),
            Point::AAddress | Point::BAddress | Point::Sequencer => Some(4),
            Point::Branch => Some(12),
            Point::CarryIn | Point::D | Point::Condition | Point::Link => None,
            _ => Some(1),
        }
    }
}

impl Points {
    /// What drives a point.
    pub fn driver(&self, point: Point) -> Control
        ensures { result ≡ driver_of self.now point }
    {
        match point {
            Point::AluSource => self.alu_source,
            Point::AluFunction => self.alu_function,
            Point::AluDestination => self.alu_destination,
            Point::AAddress => self.a_address,
            Point::BAddress => self.b_address,
            Point::Sequencer => self.sequencer,
            Point::Branch => self.branch,
            Point::TestDisable => self.test_disable,
            Point::Polarity => self.polarity,
            Point::Ci => self.ci,
            Point::Rld => self.rld,
            Point::MarLoad => self.mar_load,
            Point::IrLoad => self.ir_load,
            Point::MemoryWrite => self.memory_write,
            Point::Out => self.out,
            Point::CarryIn => self.carry_in,
            Point::D => self.d,
            Point::Condition => self.condition,
            Point::Link => self.link,
        }
    }

    /// The same points, of which one has another driver.
    pub fn with(self, point: Point, driver: Control) -> Points
        ensures exact { result ≡ with_driver self point driver }
        // Where the new driver keeps the rule of its point, all do as they did before.
        ensures kept { (fields : List NamedField) → driver_rule fields point driver ≡ Ok tt
            → DriversKeep fields self → DriversKeep fields result }
    {
        let mut points = self;
        match point {
            Point::AluSource => points.alu_source = driver,
            Point::AluFunction => points.alu_function = driver,
            Point::AluDestination => points.alu_destination = driver,
            Point::AAddress => points.a_address = driver,
            Point::BAddress => points.b_address = driver,
            Point::Sequencer => points.sequencer = driver,
            Point::Branch => points.branch = driver,
            Point::TestDisable => points.test_disable = driver,
            Point::Polarity => points.polarity = driver,
            Point::Ci => points.ci = driver,
            Point::Rld => points.rld = driver,
            Point::MarLoad => points.mar_load = driver,
            Point::IrLoad => points.ir_load = driver,
            Point::MemoryWrite => points.memory_write = driver,
            Point::Out => points.out = driver,
            Point::CarryIn => points.carry_in = driver,
            Point::D => points.d = driver,
            Point::Condition => points.condition = driver,
            Point::Link => points.link = driver,
        }
        points
    }
}
