// The commands that run a plan.
ghost use Rattle.std.specs.Prelude.{◌≡◌};

#[derive(Clone, Copy)]
pub enum Command {
    Batch,
    Replay,
    Run,
}

impl Command {
    ghost use Rattle.commands.specs.Options.{steps_for};

    // How many steps a run has at the most where it is not said.
    pub fn steps(self) -> u32
        ensures { result ≡ steps_for self }
    {
        match self {
            Command::Batch => 1_000,
            Command::Replay | Command::Run => 100,
        }
    }
}
