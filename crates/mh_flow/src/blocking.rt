//! Blocking flows: pushes along paths up the levels until none is left (Dinitz 1970).

ghost use Rattle.std.specs.Prelude.{◌<◌, ℕ, OnOk};
ghost use Rattle.mh_flow.specs.LayerData.{IsLayerRun};
ghost use Rattle.mh_flow.specs.Levels.{far};
ghost use Rattle.mh_flow.specs.inner.Over.{IsOpen, IsOver, IsSameLevels};
ghost use Rattle.mh_flow.specs.Phases.{Pushes};

use crate::layer_run::LayerRun;
use mh_base::NoMemory;

/// Pushes along paths up the levels until none is left.
pub(crate) fn block(run: &mut LayerRun<'_>) -> Result<(), NoMemory>
    requires phase { IsOpen run.old }
    requires sink { run.old.sink < far }
    ensures over { OnOk result (IsOver run.new) }
    ensures pushes { (n : ℕ) × Pushes n run.old run.new }
    ensures same { IsSameLevels run.old run.new }
    ensures kept { IsLayerRun run.new }
{
    let mut places = run.places()?;
    let mut path = run.path();
    for point in 0..run.points() {
        path.point = point;
        while run.is_end(point) && run.search(&mut places, &mut path)? {
            run.push_path(&path);
        }
    }
    Ok(())
}
