// Laws of the answers, each as the contract of a call that does nothing when it runs.
ghost use Rattle.geo_session.specs.Laws.{OneAnswerLaw, OneOutputLaw, OneReplyLaw};

/// Two replies to one command in one state have one text and leave one state.
pub fn one_reply()
    ensures { OneReplyLaw }
{}

/// The answer to a command is a function of the polygon and the command: the path between two points among them.
pub fn one_answer()
    ensures { OneAnswerLaw }
{}

/// The output is a function of the script.
pub fn one_output()
    ensures { OneOutputLaw }
{}
