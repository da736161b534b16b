// The messages, each by its fields after its letter, which stands at place 0.
ghost use Rattle.std.specs.Prelude.{◌≡◌};
ghost use Rattle.rows.specs.Layout.{read_at};
ghost use Rattle.rows.specs.Rows.{relation_layout, type_layout, origin_layout, insert_layout, update_layout, delete_layout, truncate_layout};
ghost use Rattle.rows.specs.Rows.{old_new_layout, relation_of, type_of, origin_of, insert_of, update_of, delete_of, truncate_of, old_new_of};
ghost use Rattle.rows.specs.Rows.{tuple_layout, cells_of, delete};
ghost use Rattle.rows.specs.Head.{head_told, head_of, message_by};

use crate::items::name_at;
use crate::walk::{Columns, Descriptions, Identifiers};
use crate::{Refusal, Row, Which, walk};
use wire::field::FIRST_NEGATIVE_32;

// Relation: identifier, namespace, name, replica identity, columns.
pub(crate) fn relation_at(bytes: &[u8]) -> Result<Row, Refusal>
    ensures { message_by result ≡ head_told (λ v. head_of (relation_of v)) (read_at relation_layout bytes.now 1) }
{
    let Some(id) = wire::field::read_u32(bytes, 1) else {
        return Err(Refusal::FieldCut);
    };
    let (namespace, after) = name_at(bytes, 5)?;
    let (name, next) = name_at(bytes, after)?;
    let Some(identity) = wire::field::read_u8(bytes, next) else {
        return Err(Refusal::FieldCut);
    };
    let (described, _) = walk::counted_at::<Descriptions>(bytes, next + 1)?;
    Ok(Row::Relation {
        id,
        namespace,
        name,
        identity,
        columns: described.columns,
        from: described.from,
    })
}

// Type: identifier, namespace, name.
pub(crate) fn type_at(bytes: &[u8]) -> Result<Row, Refusal>
    ensures { message_by result ≡ head_told (λ v. head_of (type_of v)) (read_at type_layout bytes.now 1) }
{
    let Some(id) = wire::field::read_u32(bytes, 1) else {
        return Err(Refusal::FieldCut);
    };
    let (namespace, after) = name_at(bytes, 5)?;
    let (name, _) = name_at(bytes, after)?;
    Ok(Row::Type {
        id,
        namespace,
        name,
    })
}

// Origin: position, name.
pub(crate) fn origin_at(bytes: &[u8]) -> Result<Row, Refusal>
    ensures { message_by result ≡ head_told (λ v. head_of (origin_of v)) (read_at origin_layout bytes.now 1) }
{
    let Some(position) = wire::field::read_u64(bytes, 1) else {
        return Err(Refusal::FieldCut);
    };
    let (name, _) = name_at(bytes, 9)?;
    Ok(Row::Origin { position, name })
}

// Insert: relation, `N`, the new tuple.
pub(crate) fn insert_at(bytes: &[u8]) -> Result<Row, Refusal>
    ensures { message_by result ≡ head_told (λ v. head_of (insert_of v)) (read_at insert_layout bytes.now 1) }
{
    let Some(relation) = wire::field::read_u32(bytes, 1) else {
        return Err(Refusal::FieldCut);
    };
    let (new, _) = walk::new_at(bytes, 5)?;
    Ok(Row::Insert { relation, new })
}

// The key or the old tuple of an Update, then `N` and the new tuple.
fn updated_from(bytes: &[u8], relation: u32, which: Which) -> Result<Row, Refusal>
    ensures { message_by result ≡ head_told (λ v. head_of (old_new_of relation which v)) (read_at old_new_layout bytes.now 6) }
{
    let (old, next) = walk::counted_at::<Columns>(bytes, 6)?;
    let (new, _) = walk::new_at(bytes, next)?;
    Ok(Row::UpdateFrom {
        relation,
        which,
        old,
        new,
    })
}

// Update: relation, then `K` or `O` and a tuple, or neither; `N`, the new tuple.
pub(crate) fn update_at(bytes: &[u8]) -> Result<Row, Refusal>
    ensures { message_by result ≡ head_told (λ v. head_of (update_of v)) (read_at update_layout bytes.now 1) }
{
    let Some(relation) = wire::field::read_u32(bytes, 1) else {
        return Err(Refusal::FieldCut);
    };
    let Some(letter) = wire::field::read_u8(bytes, 5) else {
        return Err(Refusal::FieldCut);
    };
    if letter == b'K' {
        return updated_from(bytes, relation, Which::Key);
    }
    if letter == b'O' {
        return updated_from(bytes, relation, Which::Old);
    }
    if letter == b'N' {
        let (new, _) = walk::counted_at::<Columns>(bytes, 6)?;
        return Ok(Row::Update { relation, new });
    }
    Err(Refusal::UnknownLetter)
}

// The old tuple of a Delete.
fn deleted(bytes: &[u8], relation: u32, which: Which) -> Result<Row, Refusal>
    ensures { message_by result ≡ head_told (λ v. head_of (delete relation which (cells_of v))) (read_at tuple_layout bytes.now 6) }
{
    let (old, _) = walk::counted_at::<Columns>(bytes, 6)?;
    Ok(Row::Delete {
        relation,
        which,
        old,
    })
}

// Delete: relation, `K` or `O`, the tuple.
pub(crate) fn delete_at(bytes: &[u8]) -> Result<Row, Refusal>
    ensures { message_by result ≡ head_told (λ v. head_of (delete_of v)) (read_at delete_layout bytes.now 1) }
{
    let Some(relation) = wire::field::read_u32(bytes, 1) else {
        return Err(Refusal::FieldCut);
    };
    let Some(letter) = wire::field::read_u8(bytes, 5) else {
        return Err(Refusal::FieldCut);
    };
    if letter == b'K' {
        return deleted(bytes, relation, Which::Key);
    }
    if letter == b'O' {
        return deleted(bytes, relation, Which::Old);
    }
    Err(Refusal::UnknownLetter)
}

// Truncate: a count of 32 bits, option bits, relations. A count that the data cannot have ends at the first identifier that is cut.
pub(crate) fn truncate_at(bytes: &[u8]) -> Result<Row, Refusal>
    ensures { message_by result ≡ head_told (λ v. head_of (truncate_of v)) (read_at truncate_layout bytes.now 1) }
{
    let Some(n) = wire::field::read_u32(bytes, 1) else {
        return Err(Refusal::FieldCut);
    };
    if FIRST_NEGATIVE_32 <= n {
        return Err(Refusal::FieldCut);
    }
    let Some(options) = wire::field::read_u8(bytes, 5) else {
        return Err(Refusal::FieldCut);
    };
    let relations = n as usize;
    walk::after_all::<Identifiers>(bytes, 6, relations)?;
    Ok(Row::Truncate {
        relations,
        options,
        from: 6,
    })
}
