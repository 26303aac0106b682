ghost use Rattle.std.specs.Prelude.{Some};
ghost use Rattle.table.specs.Listing.{record_text, table_text};
ghost use Rattle.table.specs.Tables.{file};

use crate::records::{Record, Table};
use std::fmt;

// `state S setting A next T mark M`.
impl fmt::Display for Record {
    ghost output = { λ r. Some (record_text r) };

    fn fmt<W: fmt::Write>(&self, f: &mut fmt::Formatter<W>) -> fmt::Result {
        write!(
            f,
            "state {} setting {} next {} mark {}",
            self.state, self.setting, self.next, self.mark
        )
    }
}

// The line with N and K, and a line for each record.
impl fmt::Display for Table {
    ghost output = { λ t. Some (table_text (file t)) };

    fn fmt<W: fmt::Write>(&self, f: &mut fmt::Formatter<W>) -> fmt::Result {
        writeln!(
            f,
            "states {} settings {}",
            self.shape.states, self.shape.settings
        )?;
        let records = self.chunks();
        for chunk in records {
            writeln!(f, "{}", Record::from(*chunk))?;
        }
        Ok(())
    }
}
