// A table that was accepted.
ghost use Rattle.std.specs.Prelude.{◌≡◌};
ghost use Rattle.model.specs.Answer.{passed};
ghost use Rattle.model.specs.Table.{ask_table};

// The words of a table that passed question 1.
#[derive(Clone, Copy)]
pub struct AcceptedTable<'a> {
    pub words: &'a [i32],
    pub ghost accepted: { ask_table words.now ≡ passed tt },
}
