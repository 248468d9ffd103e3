//! Laws of servers among all seats. The functions do nothing; what they ensure is for contracts and proofs.

ghost use Rattle.mako_sitting_servers.specs.ServerSteps.{ServersKeepAll};

/// Each step of a server keeps all groups and all seats: at its turn, in its tracing, and where it evacuates. Its act
/// is of a word that there is, and finds what the machine can go on with.
pub fn servers_keep_all()
    ensures { ServersKeepAll }
{}
