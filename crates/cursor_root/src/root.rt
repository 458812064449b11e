// The root whose names are offered at the cursor.
ghost use Rattle.std.specs.Prelude.{◌≡◌, ◌<◌, length};
ghost use Rattle.lent.specs.Lists.{reply};
ghost use Rattle.records.specs.Table.{count};
ghost use Rattle.lent.specs.Numbers.{word_limit};
ghost use Rattle.table.specs.Rules.{verdict};
ghost use Rattle.cursor_root.specs.Root.{root_at};

use descent::descent::find_node_path;
use lent::refusal::Refusal;
use statement::statement::find_enclosing_statement;
use table::check::check;

// The deepest subquery on the path, else the enclosing statement, else record 0.
pub fn root_at(table: &[u8], offset: usize) -> u32
    requires { (0 < count table.now) × (count table.now < word_limit) }
    ensures { result ≡ root_at table.now offset }
{
    let path = find_node_path(table, offset);
    if let Some(query) = path.query {
        return query as u32;
    }
    find_enclosing_statement(table, offset).unwrap_or(0)
}

// The root at the offset.
pub fn cursor_root(table: &[u8], source: &[u8], offset: usize) -> Result<u32, Refusal>
    ensures { result ≡ reply (verdict table.now (length source.now) 0) (root_at table.now offset) }
{
    check(table, source)?;
    Ok(root_at(table, offset))
}
