// Relations.
ghost use Rattle.std.specs.Prelude.{◌≡◌};
ghost use Rattle.mw_rel.specs.Relation.{related};
ghost use Rattle.mw_rel.specs.Rules.{IsRelation};
ghost use Rattle.mw_rel.specs.Seen.{boundaries_of};

use crate::boundary::Boundary;
use crate::rules::refusal;
use mw_base::Cause;
use mw_expr::Shape;

/// A relation that keeps the rules of relations. Contracts see it as its parts, each right side as a tree;
/// `is_relation` says of them that they are formed as they have to be, and accepted.
#[derive(Drop)]
pub struct Relation {
    boundaries: Vec<Boundary>,
    shape: Shape,
    pub ghost is_relation: { IsRelation (related (boundaries_of boundaries.items) shape) },
}

impl Relation {
    ghost use Rattle.std.specs.Prelude.{IfOk, IfErr, None, Some};
    ghost use Rattle.mw_rel.specs.Relation.{IsFormed};
    ghost use Rattle.mw_rel.specs.Rules.{refusal_of};
    ghost use Rattle.mw_rel.specs.Views.{relation_of};

    /// The relation of these boundaries, whose lines are over this shape. Each element that a line names is one of
    /// the shape, each address is below 4,096, no expression is more than 64 deep, and there are at most 64
    /// boundaries, each with at most 256 lines and 64 memory reads.
    ///
    /// # Errors
    ///
    /// The least cause that holds: 31 where two boundaries have one address; 41 where the widths of operands break
    /// their rule, or a right side isn't as wide as the left one; 50 where an element is left of two lines of a
    /// boundary; 51 where a left element stands on a right side of its boundary; 53 where there is no boundary; 54
    /// where a bound isn't 1 to 500. What was handed in is dropped then.
    pub fn new(boundaries: Vec<Boundary>, shape: Shape) -> Result<Relation, Cause>
        requires formed { IsFormed (related (boundaries_of boundaries.items) shape) }
        ensures ok { IfOk result (λ relation. relation_of relation ≡ related (boundaries_of boundaries.items) shape) }
        ensures accepted { IfOk result (λ relation. refusal_of (relation_of relation) ≡ None) }
        ensures err { IfErr result (λ cause. refusal_of (related (boundaries_of boundaries.items) shape) ≡ Some cause) }
    {
        match refusal(&boundaries, &shape) {
            Some(cause) => Err(cause),
            None => Ok(Relation { boundaries, shape }),
        }
    }

    /// Its boundaries, in the order in which they were handed in.
    pub fn boundaries(&self) -> &[Boundary]
        ensures { boundaries_of result.now ≡ (relation_of self.now).boundaries }
    {
        &self.boundaries
    }

    /// The widths of the elements and of the memory that its lines are over.
    pub fn shape(&self) -> &Shape
        ensures { result.now ≡ (relation_of self.now).shape }
    {
        &self.shape
    }
}
