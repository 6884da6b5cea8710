// How a run stands.
ghost use Rattle.std.specs.Prelude.{◌≡◌};
ghost use Rattle.run.specs.Views.{view_of};

use crate::Run;
use draws::source::DrawSource;
use runs::Standing;

impl<D: DrawSource> Run<'_, '_, D> {
    // How the run stands.
    pub fn standing(&self) -> Standing
        ensures { result ≡ (view_of D.DrawSource.coming self.now).standing }
    {
        self.standing
    }
}
