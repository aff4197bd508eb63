// Laws of console runs.
ghost use Rattle.mw_pal.specs.Laws.{InputsMakeTheRun, TextIsRead};

/// The law of inputs: the described steps over the inputs that a console run took, without a console, leave the state of
/// that run, and take these inputs.
pub fn inputs_make_the_run()
    ensures { InputsMakeTheRun }
{}

/// The law of the text: where the outputs of a machine's steps, the number of their inputs and the order of both don't
/// depend on the inputs that they take, a console that reads what these steps put out has the printed text.
pub fn text_is_read()
    ensures { TextIsRead }
{}
