// What needs no input.
ghost use Rattle.std.specs.Prelude.{◌≤◌, IfOk};
ghost use Rattle.requests.specs.Answers.{IsTable};
ghost use Rattle.requests.specs.Questions.{IsTableInRange, of_sample};
ghost use Rattle.requests.specs.Views.{table_of};

use crate::request::Table;
use report::type_text;
use sample::{counts_text, sample};
use std::alloc::{AllocError, Global};

/// The text of a table.
pub fn table_text(alloc: Global, table: Table) -> Result<Vec<u8>, AllocError>
    requires { IsTableInRange (table_of table) }
    ensures { IfOk result (λ text. IsTable (table_of table) text.items) }
{
    match table {
        Table::Type { kind, n } => type_text(alloc, kind, n),
        Table::Sample { n } => sample_text(alloc, n),
    }
}

/// The text of the counts over the first groups of the sample.
fn sample_text(alloc: Global, n: u32) -> Result<Vec<u8>, AllocError>
    requires { (1 ≤ n) × (n ≤ 400) }
    ensures { IfOk result (λ text. IsTable (of_sample n) text.items) }
{
    let counts = sample(alloc, n)?;
    counts_text(alloc, &counts)
}
