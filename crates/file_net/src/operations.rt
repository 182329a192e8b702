//! The laws of operations on a network: files that are put, got, deleted and renamed. A law is a
//! function that does nothing. Its contract states the law, and a caller learns the law by the call.
ghost use Rattle.file_net.specs.Operations.{AnsweredOnce, LoginIsReady, OperationAmongOthers, OperationsAmongOthers};

/// The law of operations among other clients, for a client that sends LOGIN and then the commands of
/// operations, one operation after another, and has read all replies.
pub fn law_operations_among()
    // Each file that the client got had exactly these bytes at that path when the OPEN was served.
    // Each file that the client put became the file at that path, whole, when the CLOSE was served,
    // and no other command of that put changed any file. Each DELETE took the file at that path
    // away, and each RENAME moved the file at the old path to the new path, when the command was
    // served, and changed no other file. This holds whatever the network did, and whatever other
    // clients did meanwhile.
    ensures { OperationsAmongOthers }
{}

/// The law of one operation, by a client that is logged in and has no file open, whatever the client
/// sent before.
pub fn law_operation_among()
    // An operation among other clients does what `law_operations_among` says. After the operation
    // the client is again logged in and has no file open.
    ensures { OperationAmongOthers }
{}

/// The law of a client's first command, until the client sends more.
pub fn law_login_among()
    // A client that sent LOGIN first, and has read the reply, is logged in and has no file open.
    ensures { LoginIsReady }
{}

/// The law that nothing is served twice or left out.
pub fn law_answered_once()
    // If a client has read as many replies as it wrote commands, then the server served exactly
    // the commands that the client wrote, each once and in the client's order. The client has read
    // exactly the replies to these commands.
    ensures { AnsweredOnce }
{}
