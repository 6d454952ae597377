//! Lists of pieces, each of the same size.
ghost use Rattle.std.specs.Prelude.{◌≡◌, ◌++◌, ◌<◌, OnOk};
ghost use Rattle.explanations.specs.Pieces.{whole_pieces};
ghost use Rattle.explanations.specs.PieceWords.{piece_text};

use crate::commands::write_command;
use crate::elements::write_element;
use crate::reservations::{write_key, write_registration};
use crate::units::write_lun;
use std::alloc::AllocError;

/// What a piece is.
#[derive(Clone, Copy)]
pub enum Piece {
    /// A reservation key.
    Key,
    /// A full status descriptor.
    Registration,
    /// A LUN.
    LogicalUnit,
    /// An element status descriptor, with a volume tag where there are tags.
    Element { element_type: u8, tags: bool },
    /// A command descriptor.
    Command,
}

/// Adds the words of each whole piece of a list.
pub fn write_pieces(
    line: &mut Vec<u8>,
    kind: Piece,
    size: usize,
    list: &[u8],
) -> Result<(), AllocError>
    requires { 0 < size }
    ensures { OnOk result (line.new.items ≡ line.old.items ++ whole_pieces (piece_text kind) size list.now) }
{
    let mut rest = list;
    'pieces: for place in 0..list.len() / size {
        let (piece, behind) = rest.split_at(size);
        write_piece(line, kind, piece)?;
        rest = behind;
    }
    Ok(())
}

fn write_piece(line: &mut Vec<u8>, kind: Piece, piece: &[u8]) -> Result<(), AllocError>
    ensures { OnOk result (line.new.items ≡ line.old.items ++ piece_text kind piece.now) }
{
    match kind {
        Piece::Key => write_key(line, piece),
        Piece::Registration => write_registration(line, piece),
        Piece::LogicalUnit => write_lun(line, piece),
        Piece::Element { element_type, tags } => write_element(line, element_type, tags, piece),
        Piece::Command => write_command(line, piece),
    }
}
