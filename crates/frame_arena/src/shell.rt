//! A block whose bytes are out, as a value that can give it back.
ghost use Rattle.std.specs.Prelude.{◌≡◌, ℕ, ◌<◌, List, length};
ghost use base.Fml.{ftrue, fex, fsep, feq};
ghost use Rattle.frame_arena.specs.InsideOwnership.{Span, span_code, IsPlaced, awaits};

use crate::piece::Piece;
use std::marker::{Move, Owns};

/// A `Vec` without its bytes.
pub(crate) struct Shell {
    block: Vec<u8>,
}

impl Owns for Shell {
    ghost Value = { Span };

    ghost coded = { span_code };

    ghost shr_at = { λ _ _ _. ftrue };
}

// With any bytes that fill the span the words are a `Vec` of them.
impl Move for Shell {
    ghost own_val = { λ span words. awaits span (λ bytes. fex Inside (λ shell. fsep (feq (List ℕ) shell.block.items bytes) (Fields.own_val shell words))) };
}

// It awaits bytes and gives a `Vec` of them, neither of which names a thread.
unsafe impl Send for Shell {}

impl Shell {
    /// Takes the bytes out.
    pub(crate) fn open(block: Vec<u8>) -> (Piece, Shell)
        requires { 0 < block.len }
        ensures { (result.0.place ≡ block.ptr) × (result.0.bytes ≡ block.items) × IsPlaced block.ptr
            × (result.1.start ≡ block.ptr) × (result.1.size ≡ block.len) }
    {
        (Piece {}, Shell { block })
    }

    /// Puts bytes in.
    pub(crate) fn close(self, piece: Piece) -> Vec<u8>
        requires { (piece.place ≡ self.start) × (length piece.bytes ≡ self.size) }
        ensures { result.items ≡ piece.bytes }
    {
        let Piece {} = piece;
        let Shell { block } = self;
        block
    }
}
