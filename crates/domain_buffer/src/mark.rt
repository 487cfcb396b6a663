//! Cutting a message back to what it was: a copy of its builder is a mark.
ghost use Rattle.std.specs.Prelude.{◌≡◌, ◌↔◌, IsTrue};
ghost use Rattle.domain_buffer.specs.Rrsets.{back_at, IsMark};

use crate::builder::{Builder, is_in_order};
use crate::plan::is_table;

/// Whether the mark is a builder as the calls leave it, and no longer than the message is now.
pub fn is_mark(builder: &Builder, mark: &Builder) -> bool
    ensures { IsTrue result ↔ IsMark builder.now mark.now }
{
    if mark.len > builder.len || !is_in_order(mark) || mark.table_len > 128 {
        return false;
    }
    is_table(&mark.table[..mark.table_len])
}

/// Takes away what was pushed after the mark. The identifier, the flags and the limit stay.
pub fn go_back(builder: &mut Builder, mark: &Builder)
    ensures { builder.new ≡ back_at mark.now builder.old }
{
    let (limit, id, flags) = (builder.limit, builder.id, builder.flags);
    *builder = *mark;
    builder.limit = limit;
    builder.id = id;
    builder.flags = flags;
}
