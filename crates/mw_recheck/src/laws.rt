// The law of logs.
ghost use Rattle.mw_recheck.specs.Laws.{LinesSayTrue};

/// The law of logs: where the lines of a boundary keep the rules, node 0 is false and node 1 is true, each other node
/// has the function that its line says, no two nodes have one function, and each fact is true.
pub fn lines_say_true()
    ensures { LinesSayTrue }
{}
