// The kinds of damage that are told from one slot of a directory.
ghost use Rattle.std.specs.Prelude.{ℕ, ◌≡◌, ◌<◌, ◌^◌, ◌++◌, ◌&&◌, ◌∷◌, ◌==◌, [], not, nat_le, length, flat_map, OnOk};
ghost use Rattle.std.specs.List.{filter_map, list_all, enumerate_from};
ghost use Rattle.std.specs.Option.{option_map};
ghost use Rattle.ufs_layout.specs.DentryForm.{is_named};
ghost use Rattle.ufs_image.specs.Damage.{is_plain_name, is_bad_dentry};
ghost use Rattle.ufs_damage.specs.Meaning.{meaning};
ghost use Rattle.ufs_damage.specs.Kinds.{kind_in, names_none, slot_damage, slots_damage, target_damage};

use crate::{Damage, DamageList, Findings, ReadDir};
use ufs_base::Memory;
use ufs_layout::{Dentry, Inode};

/// What is looked at of a slot.
#[derive(Clone, Copy, Debug, PartialEq, Eq)]
pub(crate) enum SlotKind {
    Spelling,
    Target,
}

fn is_plain_byte(byte: u8) -> bool
    ensures { result ≡ (nat_le 33 byte && (nat_le byte 126 && not (byte == 47))) }
{
    byte >= 33 && byte <= 126 && byte != b'/'
}

fn has_plain_bytes(name: &[u8]) -> bool
    ensures { result ≡ list_all (λ b. nat_le 33 b && (nat_le b 126 && not (b == 47))) name.now }
{
    name.iter().all(|byte| is_plain_byte(*byte))
}

// A name that a component of a path can be.
fn is_plain_name(name: &[u8]) -> bool
    ensures { result ≡ is_plain_name name.now }
{
    has_plain_bytes(name) && name != b".".as_slice() && name != b"..".as_slice()
}

fn is_named(dentry: &Dentry) -> bool
    ensures { result ≡ is_named dentry.now }
{
    !dentry.name_bytes().is_empty()
}

fn is_bad_dentry(slot: &Option<Dentry>) -> bool
    ensures { (place : ℕ) → result ≡ is_bad_dentry (place, slot.now) }
{
    match slot {
        Some(dentry) => is_named(dentry) && !is_plain_name(dentry.name_bytes()),
        None => true,
    }
}

// 0 for an inode that is out of range, free or off its form.
fn kind_of(forms: &[Option<Inode>], inode: u32) -> u8
    ensures { result ≡ kind_in forms.now inode }
{
    if inode == 0 || inode as usize > forms.len() {
        return 0;
    }
    match &forms[inode as usize - 1] {
        Some(form) => form.kind,
        None => 0,
    }
}

// The dentry's inode is out of range, free or of another kind.
fn names_none(forms: &[Option<Inode>], dentry: &Dentry) -> bool
    ensures { result ≡ names_none forms.now dentry.now }
{
    let kind = kind_of(forms, dentry.inode);
    kind == 0 || kind != dentry.kind
}

fn target_damage(
    forms: &[Option<Inode>],
    dir: u32,
    slot: u32,
    dentry: &Option<Dentry>,
) -> Option<Damage>
    ensures { option_map meaning result ≡ target_damage forms.now dir slot dentry.now }
{
    match dentry {
        Some(found) => {
            let inode = found.inode;
            (is_named(found) && names_none(forms, found)).then_some(Damage::FreeInode {
                dir,
                slot,
                inode,
            })
        }
        None => None,
    }
}

fn slot_damage(
    kind: SlotKind,
    forms: &[Option<Inode>],
    dir: u32,
    slot: u32,
    dentry: &Option<Dentry>,
) -> Option<Damage>
    ensures { option_map meaning result ≡ slot_damage kind forms.now dir (slot, dentry.now) }
{
    match kind {
        SlotKind::Spelling => is_bad_dentry(dentry).then_some(Damage::BadDentry { dir, slot }),
        SlotKind::Target => target_damage(forms, dir, slot, dentry),
    }
}

fn push_slots_of(
    list: &mut DamageList,
    kind: SlotKind,
    forms: &[Option<Inode>],
    dir: u32,
    slots: &[Option<Dentry>],
) -> Result<(), Memory>
    requires { length slots.now < 2 ^ 32 }
    ensures { OnOk result (list.new ≡ list.old ++ filter_map (slot_damage kind forms.now dir) (enumerate_from 0 slots.now)) }
{
    for (place, slot) in slots.iter().enumerate() {
        list.push_some(slot_damage(kind, forms, dir, place as u32, slot))?;
    }
    Ok(())
}

fn push_dir_slots(
    list: &mut DamageList,
    kind: SlotKind,
    forms: &[Option<Inode>],
    dir: &ReadDir,
) -> Result<(), Memory>
    ensures { OnOk result (list.new ≡ list.old ++ slots_damage kind forms.now dir.now) }
{
    let slots = dir.counted_slots();
    push_slots_of(list, kind, forms, dir.inode(), slots)?;
    Ok(())
}

// Puts the damage of this kind behind the others, by rising directory and slot.
pub(crate) fn push_slots(
    list: &mut DamageList,
    kind: SlotKind,
    findings: &Findings,
) -> Result<(), Memory>
    ensures { OnOk result (list.new ≡ list.old ++ flat_map (slots_damage kind findings.now.forms) findings.now.dirs) }
{
    let forms = findings.forms();
    for dir in findings.dirs() {
        push_dir_slots(list, kind, forms, dir)?;
    }
    Ok(())
}
