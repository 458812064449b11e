// Token classes: the list of every classed token with its class.
ghost use Rattle.std.specs.Prelude.{length};
ghost use Rattle.table.specs.Rules.{rules};
ghost use Rattle.lent.specs.Lists.{Answers};
ghost use Rattle.class_list.specs.Classes.{class_row, classes_of};

use class_list::class_list::list_classes;
use keywords::keywords::{KEYWORDS, STARTS};
use lent::refusal::Refusal;
use table::check::check;

// The question: start, end and class of every classed token, in order.
pub fn token_classes(table: &[u8], source: &[u8], out: &mut [u8]) -> Result<u32, Refusal>
    ensures { Answers (rules table.now (length source.now) 0) class_row
        (classes_of source.now table.now) out.old result out.new }
{
    check(table, source)?;
    list_classes(&KEYWORDS, &STARTS, table, source, out)
}
