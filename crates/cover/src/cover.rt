// The first cover: the first best of the groupings of the kernel in grant order.
ghost use Rattle.std.specs.Prelude.{◌≡◌, true, List, map, ℕ, suc, ◌<◌, ◌≤◌, ◌^◌, max, length, get_or, take, IfSome};
ghost use Rattle.spec.specs.Limits.{grant_limit};
ghost use Rattle.spec.specs.Sheet.{Sheet};
ghost use Rattle.spec.specs.Reduction.{kernel};
ghost use Rattle.spec.specs.Cover.{grouping, fewer, first_best};
ghost use Rattle.bits.specs.Bit.{word_bits};
ghost use Rattle.bits.specs.Counting.{NextFrom};
ghost use Rattle.lists.specs.KeyLaws.{by_key};
ghost use Rattle.cell_rows.specs.Rows.{row_words, row_bits, cell};
ghost use Rattle.cell_rows.specs.RowHeld.{holds_row};
ghost use Rattle.cell_rows.specs.CellAdded.{CellAdded};
ghost use Rattle.cells.specs.Blank.{BlankFrom};
ghost use Rattle.cell_rows.specs.CellPlaces.{grant_of, Shown};
ghost use Rattle.cells.specs.KernelArray.{KernelListed};
ghost use Rattle.cover.specs.CoverRelation.{fit_at_cells, permission_at_cell, HeldCells, user_room};
ghost use Rattle.cover.specs.CoverKeys.{class_from};
ghost use Rattle.cover.specs.CoverMembers.{class_words};
ghost use Rattle.cover.specs.CoverWords.{LacksAdded};
ghost use Rattle.cover.specs.CoverFree.{free, free_in_word};
ghost use Rattle.cover.specs.CoverAllowed.{AllowedTo};
ghost use Rattle.cover.specs.CoverPlaced.{Placed, PlacedOrMore};
ghost use Rattle.cover.specs.declared.cover.Placement.{Placement};

use bits::WORD_BITS;
use cell_rows::mark;
use cells::{Kernel, permission_of, user_of};
use numbers::{CELL_WORDS, CellNo, GRANT_LIMIT, PermissionNo, ROW_BITS, ROW_WORDS, UserNo};

// As many classes as permissions: a grouping with more is not the best.
const CLASS_LIMIT: usize = ROW_BITS;

// What the table has for a permission with no class yet: no class has this number.
const NO_CLASS: u8 = CLASS_LIMIT as u8;

// A row of words for each class.
const CLASS_WORDS: usize = CLASS_LIMIT * ROW_WORDS;

// A placement of the kernel: the class of each grant by its number, and how many classes there are.
#[repr(C)]
#[derive(Clone, Copy)]
pub struct Placement {
    pub classes: [u8; GRANT_LIMIT],
    pub used: usize,
}

// The class of a permission: the one that the table has, else the next one.
#[tactic(auto, unfolding(cell_rows::specs::Rows::row_words, cell_rows::specs::Rows::row_bits))]
fn class_of_permission(table: &[u8; ROW_BITS], count: usize, permission: PermissionNo) -> u8
    requires { (count < 2 ^ 8) × (permission.0 < row_bits) }
    ensures { result ≡ class_from row_bits table.now count permission.0 }
{
    let p = permission.0;
    let c = table[p];
    if c == NO_CLASS { count as u8 } else { c }
}

// How many classes there are once c is among them.
fn counted(count: usize, c: u8) -> usize
    ensures { result ≡ max (suc c) count }
{
    count.max(c as usize + 1)
}

// The grouping of the kernel by permission.
#[tactic(auto, unfolding(spec::specs::Limits::grant_limit, cell_rows::specs::Rows::row_words, cell_rows::specs::Rows::row_bits))]
fn grouped_by_permission(cells: &[u16]) -> Placement
    requires { length cells.now ≤ grant_limit }
    ensures { (result.used ≤ row_bits) × Placed (by_key (permission_at_cell cells.now)
        (length cells.now))
        result.classes (length cells.now) result.used × BlankFrom (length cells.now) result.classes }
{
    let mut table = [NO_CLASS; ROW_BITS];
    let mut classes = [0; GRANT_LIMIT];
    let mut count = 0;
    for (d, at) in cells.iter().enumerate() {
        let permission = permission_of(CellNo(*at as usize));
        let c = class_of_permission(&table, count, permission);
        table[permission.0] = c;
        classes[d] = c;
        count = counted(count, c);
    }
    Placement {
        classes,
        used: count,
    }
}

// Word i of the rows. Past them nobody holds anything.
fn word_at(rows: &[u64], i: usize) -> u64
    ensures { result ≡ get_or rows.now i 0 }
{
    rows.get(i).copied().unwrap_or(0)
}

// Whether a user holds every permission that the members of class c ask.
#[tactic(auto, unfolding(cell_rows::specs::Rows::row_words, cell_rows::specs::Rows::row_bits))]
fn holds_asked<'a>(rows: &'a [u64], asked: &'a [u64; CLASS_WORDS], user: UserNo, c: usize) -> bool
    requires { (user.0 < user_room) × (c < row_bits) }
    ensures { result ≡ holds_row rows.now asked.now user.0 c }
{
    let u = user.0;
    for j in 0..ROW_WORDS {
        let held = word_at(rows, u * ROW_WORDS + j);
        if !bits::within(asked[c * ROW_WORDS + j], held) {
            return false;
        }
    }
    true
}

// Puts class c in a set of classes if told so.
#[tactic(auto, unfolding(cell_rows::specs::Rows::row_words, cell_rows::specs::Rows::row_bits))]
fn put_if(allowed: &mut [u64; ROW_WORDS], c: usize, yes: bool)
    requires { (c < row_bits) × (length allowed.old ≡ row_words) }
    ensures { CellAdded allowed.old allowed.new 0 c yes }
{
    if yes {
        mark(allowed, c);
    }
}

// Of the classes below most, those whose members ask only what a user holds.
fn allowed_to<'a>(
    rows: &'a [u64],
    asked: &'a [u64; CLASS_WORDS],
    user: UserNo,
    most: usize,
) -> [u64; ROW_WORDS]
    requires { (user.0 < user_room) × (most ≤ row_bits) }
    ensures { AllowedTo rows.now asked.now user.0 most result }
{
    let mut allowed = [0; ROW_WORDS];
    for c in 0..most {
        let yes = holds_asked(rows, asked, user, c);
        put_if(&mut allowed, c, yes);
    }
    allowed
}

// The classes allowed to the next user: those allowed to the latest where they are one.
fn allowed_next<'a>(
    rows: &'a [u64],
    asked: &'a [u64; CLASS_WORDS],
    allowed: [u64; ROW_WORDS],
    latest: UserNo,
    next: UserNo,
    most: usize,
) -> [u64; ROW_WORDS]
    requires { (next.0 < user_room) × (most ≤ row_bits) }
    ensures { AllowedTo rows.now asked.now latest.0 most allowed
        → AllowedTo rows.now asked.now next.0 most result }
{
    if latest.0 == next.0 {
        allowed
    } else {
        allowed_to(rows, asked, next, most)
    }
}

// Whether a member of class c lacks a permission.
#[tactic(auto, unfolding(cell_rows::specs::Rows::row_words, cell_rows::specs::Rows::row_bits))]
fn is_lacked(lacked: &[u64; CLASS_WORDS], c: usize, permission: PermissionNo) -> bool
    requires { (c < row_bits) × (permission.0 < row_bits) }
    ensures { result ≡ cell lacked.now c permission.0 }
{
    let p = permission.0;
    bits::has(lacked[c * ROW_WORDS + p / WORD_BITS], p % WORD_BITS)
}

// The lowest position of word j of the allowed classes whose class has no member that lacks a permission, else the
// end of the word.
#[tactic(auto, unfolding(cell_rows::specs::Rows::row_words, cell_rows::specs::Rows::row_bits))]
fn free_in_word(lacked: &[u64; CLASS_WORDS], word: u64, j: usize, permission: PermissionNo) -> usize
    requires { (j < row_words) × (permission.0 < row_bits) }
    ensures { NextFrom (free_in_word word lacked.now permission.0 j) 0 word_bits result }
{
    for x in bits::positions(word) {
        if !is_lacked(lacked, j * WORD_BITS + x, permission) {
            return x;
        }
    }
    WORD_BITS
}

// The lowest allowed class with no member that lacks a permission, else as many as there can be.
#[tactic(auto, unfolding(cell_rows::specs::Rows::row_words, cell_rows::specs::Rows::row_bits))]
fn class_for<'a>(
    allowed: &'a [u64; ROW_WORDS],
    lacked: &'a [u64; CLASS_WORDS],
    permission: PermissionNo,
) -> usize
    requires { permission.0 < row_bits }
    ensures { NextFrom (free allowed.now lacked.now permission.0) 0 row_bits result }
{
    for (j, word) in allowed.iter().enumerate() {
        let x = free_in_word(lacked, *word, j, permission);
        if x < WORD_BITS {
            return j * WORD_BITS + x;
        }
    }
    CLASS_LIMIT
}

// Adds a permission to what class c asks.
#[tactic(auto, unfolding(cell_rows::specs::Rows::row_words, cell_rows::specs::Rows::row_bits))]
fn add_asked(asked: &mut [u64; CLASS_WORDS], c: usize, permission: PermissionNo)
    requires c_lt_row_bits { (c < row_bits) × (permission.0 < row_bits) }
    requires asked_len { length asked.old ≡ class_words }
    ensures { CellAdded asked.old asked.new c permission.0 true }
{
    mark(asked, c * ROW_BITS + permission.0);
}

// Adds to class c the permissions that a user lacks.
#[tactic(auto, unfolding(cell_rows::specs::Rows::row_words, cell_rows::specs::Rows::row_bits))]
fn add_lacked(rows: &[u64], lacked: &mut [u64; CLASS_WORDS], c: usize, user: UserNo)
    requires c_lt_row_bits { (c < row_bits) × (user.0 < user_room) }
    requires lacked_len { length lacked.old ≡ class_words }
    ensures { LacksAdded rows.now lacked.old lacked.new c user.0
        row_bits }
{
    let u = user.0;
    for j in 0..ROW_WORDS {
        let held = word_at(rows, u * ROW_WORDS + j);
        let i = c * ROW_WORDS + j;
        lacked[i] |= !held;
    }
}

// The grouping of the kernel by fit, or none where it needs more classes than most.
#[tactic(auto, unfolding(spec::specs::Limits::grant_limit, cell_rows::specs::Rows::row_words, cell_rows::specs::Rows::row_bits))]
fn grouped_by_fit<'a>(rows: &'a [u64], cells: &'a [u16], most: usize) -> Option<Placement>
    requires { (length cells.now ≤ grant_limit) × (most ≤ row_bits) }
    ensures placed_or_more { HeldCells rows.now cells.now
        → PlacedOrMore (grouping (fit_at_cells rows.now cells.now) (length cells.now))
        result (length cells.now) most }
    ensures blank_from { IfSome result (λ (p : Placement). BlankFrom (length cells.now) p.classes) }
{
    let mut asked = [0; CLASS_WORDS];
    let mut lacked = [0; CLASS_WORDS];
    let mut classes = [0; GRANT_LIMIT];
    let mut allowed = [!0; ROW_WORDS];
    let mut latest = UserNo(0);
    let mut count = 0;
    for (d, at) in cells.iter().enumerate() {
        let it = CellNo(*at as usize);
        let user = user_of(it);
        let permission = permission_of(it);
        allowed = allowed_next(rows, &asked, allowed, latest, user, most);
        latest = user;
        let c = class_for(&allowed, &lacked, permission);
        if c >= most {
            return None;
        }
        add_asked(&mut asked, c, permission);
        add_lacked(rows, &mut lacked, c, user);
        classes[d] = c as u8;
        count = counted(count, c as u8);
    }
    Some(Placement {
        classes,
        used: count,
    })
}

// The one of two placements with fewer classes, the earlier on a tie. Where there is no earlier one, it has more.
fn with_fewer(earlier: Option<Placement>, later: Placement) -> Placement
    ensures placed { (n : ℕ) (p q : List ℕ) → PlacedOrMore p earlier n later.used
        → Placed q later.classes n later.used
        → Placed (fewer p q) result.classes n result.used }
    ensures blank_from { (n : ℕ) → IfSome earlier (λ (p : Placement). BlankFrom n p.classes)
        → BlankFrom n later.classes → BlankFrom n result.classes }
{
    match earlier {
        Some(earlier) if earlier.used <= later.used => earlier,
        _ => later,
    }
}

// The first best of the groupings of the grants at some cells, by fit and by permission. By user there are never
// fewer classes than by fit.
fn best_of<'a>(rows: &'a [u64], cells: &'a [u16]) -> Placement
    requires { length cells.now ≤ grant_limit }
    ensures by_index { (users : ℕ) (sheet : Sheet) → Shown rows.now users sheet
        → map grant_of cells.now ≡ kernel sheet
        → Placed (first_best sheet) result.classes (length cells.now) result.used }
    ensures blank_from { BlankFrom (length cells.now) result.classes }
{
    let permission = grouped_by_permission(cells);
    let fit = grouped_by_fit(rows, cells, permission.used);
    with_fewer(fit, permission)
}

// The first best grouping of the kernel of the sheet that the rows show. Past the kernel the classes are 0.
#[tactic(auto, unfolding(spec::specs::Limits::grant_limit))]
pub fn first_best(rows: &[u64; CELL_WORDS], grants: Kernel) -> Placement
    requires { KernelListed rows.now grants.cells grants.size }
    ensures by_index { (users : ℕ) (sheet : Sheet) → Shown rows.now users sheet
        → map grant_of (take grants.size grants.cells) ≡ kernel sheet
        → Placed (first_best sheet) result.classes (length (kernel sheet)) result.used }
    ensures blank_from { BlankFrom grants.size result.classes }
{
    let size = grants.size;
    if size == 0 {
        let classes = [0; GRANT_LIMIT];
        return Placement { classes, used: 0 };
    }
    let cells = grants.cells;
    best_of(rows, &cells[..size])
}
