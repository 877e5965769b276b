//! Where an expression is evaluated, with rows that are lent.

ghost use Rattle.std.specs.Prelude.{◌≡◌, ◌∷◌, drop, []};
ghost use Rattle.std.specs.Option.{option_copied};
ghost use Rattle.sql_meaning.specs.Context.{inside, outermost, over, at_row, argument, at, column};
ghost use Rattle.sql_eval.specs.Scopes.{context_at, tables_of};
ghost use Rattle.lateral_rows.specs.RowParts.{or_null};
ghost use Rattle.std.specs.Prelude.{IfOk, Ok, length, pos, slice_index_or, ℕ, ◌≤◌, ◌^◌};
ghost use Rattle.away_values.specs.declared.values.Value.TheVariants as val;

use crate::shared_rows::SharedRow;
use away_trees::Col;
use away_values::{NoMemory, Table, Value};
use sqlite_items::{Items, at as item_at};
use std::alloc::Global;
use std::marker::Model;

/// A row of FROM, lent: for each of its items, a row of that item.
#[derive(Drop)]
pub struct Frame<'a> {
    rows: &'a [SharedRow<'a>],
}

impl<'a> Model for Frame<'a> {
    ghost use Rattle.sql_meaning.specs.Context.{Frame as SqlFrame};

    ghost Value = { SqlFrame };

    ghost view = { λ f. f.rows.now };
}

impl<'a> Frame<'a> {
    pub fn new(rows: &'a [SharedRow<'a>]) -> Frame<'a>
        ensures { result ≡ rows.now }
    {
        Frame { rows }
    }

    pub fn rows(&self) -> &'a [SharedRow<'a>]
        ensures { result.now ≡ self.now }
    {
        self.rows
    }

    /// The same frame, lent once more.
    pub fn again(&self) -> Frame<'a>
        ensures { result ≡ self.now }
    {
        Frame { rows: self.rows }
    }
}

/// What an expression sees: the variables, the parameters, the row of each enclosing select, the tables, and the rows that aggregates go over.
#[derive(Drop)]
pub struct Scope<'f, 't> {
    env: &'t [Value],
    args: &'t [Value],
    row: Option<Frame<'f>>,
    outer: &'f [Frame<'f>],
    tables: &'t [Table],
    working: Option<&'t [Items<Value>]>,
    group: &'f [Frame<'f>],
}

impl<'f, 't> Model for Scope<'f, 't> {
    ghost use Rattle.sql_meaning.specs.Context.{Context};
    ghost use Rattle.sql_eval.specs.Scopes.{frames_of, tables_of};

    ghost Value = { Context };

    ghost view = { λ s. record {
      env = s.env.now;
      args = s.args.now;
      frames = frames_of s.row s.outer.now;
      tables = tables_of s.tables.now s.working;
      group = s.group.now;
    } };
}

impl<'f, 't> Scope<'f, 't> {
    /// Outside every select, with the recursive table after the others where there is one.
    pub fn outermost(
        tables: &'t [Table],
        working: Option<&'t [Items<Value>]>,
        args: &'t [Value],
    ) -> Scope<'f, 't>
        ensures { result ≡ outermost (tables_of tables.now working.entry) args.now }
    {
        Scope {
            env: &[],
            args,
            row: None,
            outer: &[],
            tables,
            working,
            group: &[],
        }
    }

    /// At variables, parameters, enclosing rows and tables.
    pub fn at(
        env: &'t [Value],
        args: &'t [Value],
        frames: &'f [Frame<'f>],
        tables: &'t [Table],
    ) -> Scope<'f, 't>
        ensures { result ≡ context_at env.now args.now frames.now tables.now }
    {
        Scope {
            env,
            args,
            row: None,
            outer: frames,
            tables,
            working: None,
            group: &[],
        }
    }

    /// The frames, the innermost first.
    #[tactic(auto, using(crate::proofs::ListSteps::copy_rules))]
    pub fn levels(&self, alloc: Global) -> Result<Items<Frame<'f>>, NoMemory>
        ensures { IfOk result (λ l. l ≡ self.now.frames) }
    {
        let mut levels = Items::new(alloc);
        match &self.row {
            Some(frame) => levels.push(frame.again())?,
            None => {}
        }
        for i in 0..self.outer.len() {
            levels.push(self.outer[i].again())?;
        }
        Ok(levels)
    }

    /// The same, with its frames in one list.
    pub fn outside<'b>(&self, levels: &'b [Frame<'b>]) -> Outside<'b, 't>
    where
        'f: 'b,
        requires { levels.now ≡ self.now.frames }
        ensures { result ≡ self.now }
    {
        Outside {
            env: self.env,
            args: self.args,
            levels,
            tables: self.tables,
            working: self.working,
            group: self.group,
        }
    }

    /// The row of the select within, at a row of the group.
    pub fn at_row<'b>(&self, frame: &'b Frame<'b>) -> Scope<'b, 't>
    where
        'f: 'b,
        ensures { result ≡ at_row frame.now self.now }
    {
        let outer = match &self.row {
            Some(_) => self.outer,
            None => match self.outer {
                [] => &[],
                [_, more @ ..] => more,
            },
        };
        Scope {
            env: self.env,
            args: self.args,
            row: Some(frame.again()),
            outer,
            tables: self.tables,
            working: self.working,
            group: &[],
        }
    }

    pub fn group(&self) -> &'f [Frame<'f>]
        ensures { result.now ≡ self.now.group }
    {
        self.group
    }

    pub(crate) fn group_count(&self) -> Value
        ensures { result ≡ val.Int (pos (length self.now.group)) }
    {
        Value::Int(self.group.len() as i64)
    }

    #[tactic(auto, using(lateral_rows::proofs::PlaceRules::place_rules))]
    pub(crate) fn slot(&self, i: u32) -> Option<&'t Value>
        ensures { or_null (option_copied result) ≡ at self.now.env i }
    {
        item_at(self.env, i as usize)
    }

    #[tactic(auto, using(lateral_rows::proofs::PlaceRules::place_rules))]
    pub(crate) fn param(&self, i: u32) -> Option<&'t Value>
        ensures { or_null (option_copied result) ≡ argument self.now.args i }
    {
        if i == 0 {
            return None;
        }
        item_at(self.args, i as usize - 1)
    }

    #[tactic(auto, using(lateral_rows::proofs::PlaceRules::place_rules))]
    pub(crate) fn column(&self, c: Col) -> Option<&'f Value>
        ensures { or_null (option_copied result) ≡ column self.now.frames c }
    {
        let row = item_at(self.frame_rows(c.level), c.item as usize)?;
        item_at(row.values(), c.column as usize)
    }

    #[tactic(auto, using(lateral_rows::proofs::PlaceRules::place_rules))]
    fn frame_rows(&self, level: u32) -> &'f [SharedRow<'f>]
        ensures { result.now ≡ slice_index_or self.now.frames level [] }
    {
        match &self.row {
            Some(frame) => {
                if level == 0 {
                    frame.rows()
                } else {
                    rows_at(self.outer, level as usize - 1)
                }
            }
            None => rows_at(self.outer, level as usize),
        }
    }
}

/// Where a select stands: what its parts see beside its own rows.
#[derive(Drop)]
pub struct Outside<'f, 't> {
    env: &'t [Value],
    args: &'t [Value],
    levels: &'f [Frame<'f>],
    tables: &'t [Table],
    working: Option<&'t [Items<Value>]>,
    group: &'f [Frame<'f>],
}

impl<'f, 't> Model for Outside<'f, 't> {
    ghost use Rattle.sql_meaning.specs.Context.{Context};
    ghost use Rattle.sql_eval.specs.Scopes.{tables_of};

    ghost Value = { Context };

    ghost view = { λ s. record { env = s.env.now; args = s.args.now; frames = s.levels.now; tables = tables_of s.tables.now s.working; group = s.group.now } };
}

impl<'f, 't> Outside<'f, 't> {
    /// The same, lent for less long.
    pub fn again<'b>(&self) -> Outside<'b, 'b>
    where
        'f: 'b,
        't: 'b,
        ensures { result ≡ self.now }
    {
        Outside {
            env: self.env,
            args: self.args,
            levels: self.levels,
            tables: self.tables,
            working: self.working,
            group: self.group,
        }
    }

    /// The same, with the frames lent for less long.
    pub fn here<'b>(&self) -> Outside<'b, 't>
    where
        'f: 'b,
        ensures { result ≡ self.now }
    {
        Outside {
            env: self.env,
            args: self.args,
            levels: self.levels,
            tables: self.tables,
            working: self.working,
            group: self.group,
        }
    }

    /// At a row of the select's FROM.
    pub fn inside<'b>(&self, frame: Frame<'b>) -> Scope<'b, 't>
    where
        'f: 'b,
        ensures { result ≡ inside frame.entry self.now }
    {
        Scope {
            env: self.env,
            args: self.args,
            row: Some(frame),
            outer: self.levels,
            tables: self.tables,
            working: self.working,
            group: &[],
        }
    }

    /// In the list of a select with aggregates.
    pub fn over<'b>(&self, rows: &'b [Frame<'b>]) -> Scope<'b, 't>
    where
        'f: 'b,
        ensures { result ≡ over rows.now self.now }
    {
        Scope {
            env: self.env,
            args: self.args,
            row: Some(Frame { rows: &[] }),
            outer: self.levels,
            tables: self.tables,
            working: self.working,
            group: rows,
        }
    }

    /// No rows, as of a table at a place that no list of tables reaches.
    pub fn no_table(&self) -> &'t [Items<Value>]
        ensures none { result.now ≡ [] }
        ensures past { (n : ℕ) → 2 ^ 64 ≤ n → slice_index_or self.now.tables n [] ≡ [] }
    {
        let _count = self.tables.len();
        &[]
    }

    /// The rows of the table at the place.
    #[tactic(auto, using(lateral_rows::proofs::PlaceRules::place_rules))]
    pub fn table(&self, place: usize) -> &'t [Items<Value>]
        ensures { result.now ≡ slice_index_or self.now.tables place [] }
    {
        if place < self.tables.len() {
            return self.tables[place].rows.as_slice();
        }
        match self.working {
            Some(rows) => {
                if place == self.tables.len() {
                    rows
                } else {
                    &[]
                }
            }
            None => &[],
        }
    }
}

#[tactic(auto, using(lateral_rows::proofs::PlaceRules::place_rules))]
fn rows_at<'a>(frames: &'a [Frame<'a>], level: usize) -> &'a [SharedRow<'a>]
    ensures { result.now ≡ slice_index_or frames.now level [] }
{
    let Some(frame) = item_at(frames, level) else {
        return &[];
    };
    frame.rows()
}
