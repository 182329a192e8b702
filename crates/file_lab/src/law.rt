//! The law that the laws of a laboratory with FILE can be used. A law is a function that does
//! nothing. Its contract states the law, and a caller learns the law by the call.
ghost use Rattle.file_lab.specs.FileLabHello.{CommandWaits};

/// The law that the premises of the laws of a [`FileLab`](crate::FileLab) can be met.
pub fn law_file_lab_hello()
    // Five events lead to a laboratory in which A waits for the reply to a command that was lost.
    // Both ends can settle, and B wrote no out-of-memory reply.
    ensures { CommandWaits }
{}
