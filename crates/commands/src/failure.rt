// Why a command was not carried out.
use std::alloc::{AllocError, AllocFailed};
use std::io;

// The line is wrong by its form, or a word by what it says; or the work failed.
#[derive(Drop)]
pub enum Failure {
    Line(clap::Error),
    Words(anyhow::Error),
    Work(anyhow::Error),
}

impl From<anyhow::Error> for Failure {
    fn from(error: anyhow::Error) -> Failure {
        Failure::Work(error)
    }
}

impl From<io::Error> for Failure {
    fn from(error: io::Error) -> Failure {
        Failure::Work(anyhow::Error::from(error))
    }
}

impl<T: Drop> From<AllocFailed<T>> for Failure {
    fn from(_error: AllocFailed<T>) -> Failure {
        Failure::from(AllocError)
    }
}

impl From<AllocError> for Failure {
    fn from(error: AllocError) -> Failure {
        Failure::Work(anyhow::Error::from(error))
    }
}

impl Failure {
    ghost use Rattle.commands.specs.Failures.{IsStatusOf};

    // Tells it, and answers the status with which the program ends. A line that asks for help would
    // be no failure, and have the status 0.
    pub fn told(&self, rt: &HostRuntime) -> u8
        ensures { IsStatusOf self.now result }
    {
        match self {
            Failure::Line(error) => {
                let _ = error.print(rt);
                if error.use_stderr() { 2 } else { 0 }
            }
            Failure::Words(error) => {
                let _ = eprintln!(rt; "junction: {error}");
                2
            }
            Failure::Work(error) => {
                let _ = eprintln!(rt; "junction: {error}");
                1
            }
        }
    }
}
