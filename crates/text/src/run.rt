// The lines of a run.
ghost use Rattle.std.specs.Prelude.{[], ◌∷◌, ◌+◌, ◌*◌, ◌-◌, ◌≤◌, length};
ghost use Rattle.lists.specs.Rows.{num};
ghost use Rattle.put.specs.Names.{name_at};
ghost use Rattle.put.specs.Put.{HasRoom, Puts};
ghost use Rattle.text.specs.Texts.{PutsWhole};
ghost use Rattle.text.specs.RunText.{word, bit_text, bits_text, turn_text, steps_text, line_text, run_line};
ghost use Rattle.job.specs.Limits.{max_steps, max_bound};

use super::has_room;
use super::numeral::put_number;
use job::{Job, Process};
use lists::get_or;
use put::Page;

// A line's bytes at most, in a table of as many variables as there may be.
const LINE: usize = 33 + 26 * Job::STEPS;

// A byte for which there is room.
#[inline(always)]
fn put_byte(page: &mut Page, b: u8)
    requires { HasRoom page.old 1 }
    ensures { Puts 1 page.old page.new (b ∷ []) }
{
    let end = page.end;
    page.out[end] = b;
    page.end = end + 1;
}

// Name k, which the table has: byte by byte, in less time than a call that copies a few.
#[inline(always)]
fn put_held(page: &mut Page, names: &[u8], k: usize)
    requires { (k * 4 ≤ length names.now) × HasRoom page.old 4 }
    ensures { Puts 4 page.old page.new (name_at names.now k) }
{
    let end = page.end;
    for i in 0..4 {
        let b = get_or(names, k * 4 + i, 0);
        if b == 0 {
            page.end = end + i;
            return;
        }
        page.out[end + i] = b;
    }
    page.end = end + 4;
}

// As a page puts a name, where there is room for any.
#[inline(always)]
fn put_name(page: &mut Page, names: &[u8], k: usize)
    requires { HasRoom page.old 4 }
    ensures { Puts 4 page.old page.new (name_at names.now k) }
{
    if k <= names.len() / 4 {
        put_held(page, names, k);
    }
}

#[inline(always)]
fn put_word(page: &mut Page, names: &[u8], k: usize)
    requires { HasRoom page.old 5 }
    ensures { Puts 5 page.old page.new (word names.now k) }
{
    put_byte(page, b' ');
    put_name(page, names, k);
}

// `a=0` behind a space.
#[inline(always)]
fn put_bit(page: &mut Page, names: &[u8], x: usize, b: u8)
    requires { HasRoom page.old 26 }
    ensures { Puts 26 page.old page.new (bit_text names.now x b) }
{
    put_word(page, names, x);
    put_byte(page, b'=');
    put_number(page, usize::from(b));
}

// The bits of a group.
#[inline(always)]
fn put_bits(page: &mut Page, names: &[u8], group: &[u8], n: usize)
    requires { (HasRoom page.old (n * 26)) × (n ≤ max_steps) }
    ensures { Puts (n * 26) page.old page.new (bits_text names.now n (num group.now)) }
{
    for x in 0..n {
        put_bit(page, names, x, get_or(group, 2 + x, 0));
    }
}

#[inline(always)]
fn put_turn(page: &mut Page, b: u8)
    requires { HasRoom page.old 2 }
    ensures { Puts 2 page.old page.new (turn_text b) }
{
    if b == Process::A as u8 {
        put_byte(page, b' ');
        put_byte(page, b'A');
    } else if b == Process::B as u8 {
        put_byte(page, b' ');
        put_byte(page, b'B');
    }
}

// The name of the step with this number, which counts from 1.
#[inline(always)]
fn put_step(page: &mut Page, labels: &[u8], number: u8)
    requires { HasRoom page.old 5 }
    ensures { Puts 5 page.old page.new (word labels.now (number - 1)) }
{
    put_word(page, labels, usize::from(number.saturating_sub(1)));
}

// Time and steps.
#[inline(always)]
fn put_steps(page: &mut Page, labels: &[u8], group: &[u8], t: usize)
    requires { HasRoom page.old 30 }
    ensures { Puts 30 page.old page.new (steps_text labels.now (num group.now) t) }
{
    put_number(page, t);
    put_step(page, labels, get_or(group, 0, 0));
    put_step(page, labels, get_or(group, 1, 0));
}

// The line of time t, which has this group.
#[inline(always)]
fn put_line(page: &mut Page, j: &Job, group: &[u8], t: usize)
    requires variables { j.now.program.variables ≤ max_steps }
    requires room { HasRoom page.old (30 + j.now.program.variables * 26 + 2 + 1) }
    ensures { Puts (30 + j.now.program.variables * 26 + 2 + 1) page.old page.new
        (line_text j.now.labels j.now.names j.now.program.variables (num group.now) t) }
{
    let n = j.program.variables;
    put_steps(page, &j.labels, group, t);
    put_bits(page, &j.names, group, n);
    put_turn(page, get_or(group, 2 + n, 0));
    put_byte(page, b'\n');
}

// The same, made in an array of its own, so that it is put whole or not at all.
#[inline(never)]
fn try_put_made(page: &mut Page, j: &Job, group: &[u8], t: usize) -> bool
    requires { (j.now.program.variables ≤ max_steps) × (t ≤ max_bound) }
    ensures { PutsWhole (30 + j.now.program.variables * 26 + 2 + 1) page.old page.new result
        (line_text j.now.labels j.now.names j.now.program.variables (num group.now) t) }
{
    let mut line = [0u8; LINE];
    let mut one = Page::new(&mut line);
    put_line(&mut one, j, group, t);
    let end = one.end;
    let fits = has_room(page, end);
    page.part(&line[..end]);
    fits
}

// Line t of a run where it has room; tells whether it had. Where any line would fit it is put at once.
pub(crate) fn try_put_line(page: &mut Page, j: &Job, run: &[u8], t: usize) -> bool
    requires { (j.now.program.variables ≤ max_steps) × (t ≤ max_bound) }
    ensures { PutsWhole (30 + j.now.program.variables * 26 + 2 + 1) page.old page.new result (run_line j.now run.now t) }
{
    let n = j.program.variables;
    let group = scan::rest(run, t * (n + 3));
    if has_room(page, 33 + n * 26) {
        // By a page of its own, whose place stays in a register.
        let mut here = Page {
            out: &mut *page.out,
            end: page.end,
        };
        put_line(&mut here, j, group, t);
        page.end = here.end;
        return true;
    }
    try_put_made(page, j, group, t)
}
