// What a picture is.
ghost use Rattle.tasks.specs.View.{view};
ghost use Rattle.tasks.specs.Promises.{IsReached};

use crate::tables::Tables;

/// What is known of the tasks of one program: some list of accepted events leads from a new picture to this one.
#[derive(Drop)]
pub struct Picture {
    pub(crate) tables: Tables,
    ghost reached: { IsReached (view tables) },
}
