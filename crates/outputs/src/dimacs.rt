// The first program: comments and header, and then the clauses piece by piece.
ghost use Rattle.std.specs.Prelude.{◌≡◌, ◌++◌, ◌≤◌, length};
ghost use Rattle.lists.specs.Writing.{write};
ghost use Rattle.job.specs.Limits.{max_text};
ghost use Rattle.text.specs.Comments.{comments};
ghost use Rattle.text.specs.Lines.{line_room, header};
ghost use Rattle.outputs.specs.Printing.{Holds};
ghost use Rattle.outputs.specs.Dimacs.{opening_room, opened, IsFollowing, Opens, piece_numbers, piece_room, next_piece, PieceText};

use super::line::put_refusal;
use super::printed::Printed;
use fit::FitJob;
use job::{Job, Refusal};
use totals::Header;

// Comments are at most twice as long as the text.
pub const OPENING: usize = 2 * Job::TEXT + text::LINE;

// What is printed first; and where clauses follow, of which job and how many.
#[derive(Clone, Copy)]
pub struct Opened {
    pub text: Printed<OPENING>,
    pub following: Option<Following>,
}

#[derive(Clone, Copy)]
pub struct Following {
    pub fit: FitJob,
    pub clauses: usize,
}

fn put_comments(out: &mut [u8], text: &[u8]) -> usize
    requires { length (comments text.now) ≤ length out.old }
    ensures { (result ≡ length (comments text.now)) × (out.new ≡ write out.old 0 (comments text.now)) }
{
    text::comment_text(text, out).unwrap()
}

fn put_header(out: &mut [u8], counts: Header) -> usize
    requires { line_room ≤ length out.old }
    ensures { (result ≡ length (header counts.variables counts.clauses))
        × (out.new ≡ write out.old 0 (header counts.variables counts.clauses)) }
{
    text::header_text(counts.variables, counts.clauses, out).unwrap()
}

fn put_before(out: &mut [u8], text: &[u8], counts: Header) -> usize
    requires { (length text.now ≤ max_text) × (opening_room ≤ length out.old) }
    ensures { (result ≡ length (comments text.now ++ header counts.variables counts.clauses))
        × (out.new ≡ write out.old 0 (comments text.now ++ header counts.variables counts.clauses)) }
{
    let end = put_comments(&mut *out, text);
    end + put_header(&mut out[end..], counts)
}

// How long that is, and what follows.
#[derive(Clone, Copy)]
struct Begun {
    length: usize,
    following: Following,
}

fn put_opening(out: &mut [u8], text: &[u8]) -> Result<Begun, Refusal>
    requires { opening_room ≤ length out.old }
    ensures { Opens text.now result out.old out.new }
{
    let job = parse::read(text)?;
    let fit = FitJob::try_from(job)?;
    let header = totals::header_of(&fit);
    let length = put_before(out, text, header);
    Ok(Begun {
        length,
        following: Following {
            fit,
            clauses: header.clauses,
        },
    })
}

// What is printed of a job text before its clauses. It is not inlined: what it needs on the stack is free again while clauses are made.
#[inline(never)]
pub fn opening(text: &[u8]) -> Opened
    ensures text { Holds opening_room (opened text.now) result.text.array result.text.length }
    ensures following { IsFollowing text.now result.following }
{
    let mut array = [0u8; OPENING];
    let (length, following) = match put_opening(&mut array, text) {
        Ok(begun) => (begun.length, Some(begun.following)),
        Err(refusal) => (put_refusal(&mut array, refusal), None),
    };
    Opened {
        text: Printed { array, length },
        following,
    }
}

// How many clauses were written, and the bytes of their text.
#[derive(Clone, Copy, PartialEq, Eq, Debug)]
pub struct Piece {
    pub clauses: usize,
    pub length: usize,
}

impl Piece {
    // The numbers of a piece: as many as a text has bytes; with any other room the pieces joined are the same.
    const NUMBERS: usize = Job::TEXT;

    pub const TEXT: usize = text::NUMBER * Piece::NUMBERS;
}

// A piece by way of lent numbers, which hold anything afterwards.
fn put_piece(j: Job, c: usize, numbers: &mut [i32], out: &mut [u8]) -> Piece
    ensures { PieceText (next_piece j c (piece_room (length numbers.old) (length out.old)))
        out.old result out.new }
{
    let room = numbers.len().min(out.len() / text::NUMBER);
    let Ok(piece) = cnf::clauses(j, c, &mut numbers[..room]) else {
        return Piece {
            clauses: 0,
            length: 0,
        };
    };
    let texted = text::numbers_text(&numbers[..piece.numbers], out);
    Piece {
        clauses: piece.clauses,
        length: texted.bytes,
    }
}

// The text of whole clauses from clause number c on, as many as the buffer holds.
pub fn next_piece(j: Job, c: usize, out: &mut [u8]) -> Piece
    ensures { PieceText (next_piece j c (piece_room piece_numbers (length out.old)))
        out.old result out.new }
{
    let mut numbers = [0i32; Piece::NUMBERS];
    put_piece(j, c, &mut numbers, out)
}
