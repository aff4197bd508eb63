// What goes along a path.
ghost use Rattle.std.specs.Prelude.{◌≡◌};
ghost use Rattle.mw_decide.specs.Traces.{traced_over};

use mw_dd::Dd;
use mw_path::Paths;
use mw_term::Places;

/// What goes along a path, as a course does, with the path.
#[derive(Drop)]
pub struct Traced<C: Drop> {
    /// What goes along it.
    pub course: C,
    /// The assignments on the path, with what was made of all terms.
    pub paths: Paths,
}

/// What waits, over what all have made.
#[derive(Drop)]
pub struct Waiting<C: Drop> {
    /// What waits.
    pub course: C,
    /// Where the terms that it wrote stand in the table.
    pub places: Places,
    /// The assignments on its path.
    pub path: Dd,
}

impl<C: Drop> Traced<C> {
    /// What it has made; the rest of it is dropped.
    pub fn into_paths(self) -> Paths
        ensures { result ≡ self.paths }
    {
        let Traced { course, paths } = self;
        drop(course);
        paths
    }
}

impl<C: Drop> Waiting<C> {
    /// It goes on, over what was made.
    pub fn over(self, made: Paths) -> Traced<C>
        ensures { result ≡ traced_over made self }
    {
        let Waiting {
            course,
            places,
            path,
        } = self;
        Traced {
            course,
            paths: made.over(places, path),
        }
    }
}
