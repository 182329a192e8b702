//! The laws of runs over files. A law is a function that does nothing. Its contract states the law,
//! and a caller learns the law by the call.
ghost use Rattle.file_transfer.specs.Done.{RunGot, RunPut, RunsDelete, RunsGet, RunsPut};

use crate::delete_files::DeleteFiles;
use crate::file_task::FileTask;
use crate::get_files::GetFiles;
use crate::local_files::LocalFiles;
use crate::progress_sink::ProgressSink;
use crate::put_files::PutFiles;
use file_copy::Talk;

/// The law of the runs of gets and puts that `run_copies` makes, by a user who wasn't logged in before.
pub fn law_runs<T: Talk, L: LocalFiles, V: ProgressSink>()
    // If a run of `GetFiles` is Done, then the user asked for one connection, logged in, and got each
    // file, in order. The user did nothing else.
    ensures got { RunsGet T.talked T.connects ⟦<GetFiles<'static, T, L, V> as FileTask>⟧.tries }
    // The same of a run of `PutFiles`: each file was put at its path.
    ensures put { RunsPut T.talked T.connects ⟦<PutFiles<'static, T, L, V> as FileTask>⟧.tries }
    // In any run, a file that is reported as copied was got in a session of the run, which began when
    // the user asked for a connection. This holds whatever came of the other files.
    ensures each_got { RunGot T.talked T.connects ⟦<GetFiles<'static, T, L, V> as FileTask>⟧.tries }
    // The same of a file that is put.
    ensures each_put { RunPut T.talked T.connects ⟦<PutFiles<'static, T, L, V> as FileTask>⟧.tries }
{}

/// The law of the runs of deletes that `run_copies` makes, by a user who wasn't logged in before.
pub fn law_deletes<T: Talk, V: ProgressSink>()
    // If a run of `DeleteFiles` is Done, then the user asked for one connection, logged in, and
    // deleted each file, in order. The user did nothing else.
    ensures { RunsDelete T.talked T.connects ⟦<DeleteFiles<'static, T, V> as FileTask>⟧.tries }
{}
