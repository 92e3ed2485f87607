// An accepted log: the walks of a policy read it together with its table and its links.
ghost use Rattle.std.specs.Prelude.{◌≡◌, ◌≤◌};
ghost use Rattle.model.specs.Words.{predicate_limit};
ghost use Rattle.model.specs.Answer.{passed};
ghost use Rattle.model.specs.Table.{predicates};
ghost use Rattle.model.specs.Log.{row_count, ask_log};
ghost use Rattle.chains.specs.Chain.{Chained};
ghost use Rattle.chains.specs.Key.{row_key, atom_keys};
ghost use Rattle.logs.specs.Links.{Linked};

// A log that passed its questions, with the links of its rows by their atoms: what the value of an atom asks for.
#[derive(Clone, Copy)]
pub struct KnownAtoms<'a> {
    pub table: &'a [i32],
    pub rows: &'a [i32],
    pub links: &'a [u16],
    pub ghost accepted: { ask_log table.now rows.now ≡ passed tt },
    pub ghost chained: { Chained (row_key rows.now) atom_keys (row_count rows.now) links.now },
}

// A log that passed its questions over a table of not too many predicates, with all its links.
#[derive(Clone, Copy)]
pub struct AcceptedLog<'a> {
    pub table: &'a [i32],
    pub rows: &'a [i32],
    pub links: &'a [u16],
    pub ghost few: { predicates table.now ≤ predicate_limit },
    pub ghost accepted: { ask_log table.now rows.now ≡ passed tt },
    pub ghost linked: { Linked rows.now links.now },
}
