// Why a run ends before its script does.

use std::io;

// A line is no command, or a read or a write failed.
#[derive(Drop)]
pub(crate) enum Stop {
    Broken,
    Failed(io::Error),
}

impl From<io::Error> for Stop {
    fn from(error: io::Error) -> Self {
        Stop::Failed(error)
    }
}
