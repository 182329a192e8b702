//! The laws of FILE over a network. A law is a function that does nothing. Its contract states the
//! law, and a caller learns the law by the call.
ghost use Rattle.file_net.specs.FileNet.{FileNetLaw, HistoriesGrow};
ghost use Rattle.file_net.specs.Serving.{ServingIsEvent};
ghost use Rattle.file_net.specs.Short.{ShortFileLaw, TwoAreServed};
ghost use Rattle.file_net.specs.Users.{UsersAreTold};

use chaos_file::Store;

/// The law of one history. Take any run of two hosts on one network, whose host B serves FILE to
/// all connections from one store. The server serves one command of one client at a time, as if
/// there were one client.
pub fn law_file_net()
    // The files are what FILE's definition computes from one history of all commands. In it each
    // connection has a session of its own, new at first, and each reply is the right reply. What a
    // connection of B, past or present, has read and written are that connection's commands and
    // replies in the history, each once and in order. What the user of a client has read is a
    // prefix of the replies in the history. The commands in the history are a prefix of what that
    // user has written.
    ensures { FileNetLaw }
{}

/// The law of time. A command whose reply a client has read stands before each command that any
/// client writes later.
pub fn law_grows()
    // The order of the history is the order of time: the history grows only at its end, whatever
    // happens.
    ensures { HistoriesGrow }
{}

/// The law of `serve_one`, over a store that keeps its files honestly.
pub fn law_serving<S: Store>()
    // What the contract of `serve_one` says of host, packets, store and session is an event of the
    // file net: B served that connection once. No other session changes.
    ensures { ServingIsEvent S.contents S.may_give S.count }
{}

/// The law of short runs. The other laws hold of such a run with no premise on the age of packets.
pub fn law_short_file()
    // Whatever at most 128 events lead to from two new hosts is reached, if memory and the store
    // don't fail: each packet is fresh.
    ensures { ShortFileLaw }
{}

/// The law that the other laws aren't empty.
pub fn law_served()
    // 17 events lead to a file net that is reached. The server has served two clients, not in the
    // order in which their commands arrived, and one client has read its reply.
    ensures { TwoAreServed }
{}

/// The law of the calls of a client's user.
pub fn law_users()
    // In every run, the data that a connection of A has written are the data that the writes of its
    // user took. The data that the connection has read are the data that the reads gave, in order.
    ensures { UsersAreTold }
{}
