// One operation of a file, and the operations read so far.
ghost use Rattle.std.specs.Prelude.{◌≡◌, ◌≤◌, ◌+◌, length, List, ◌++◌, [], ◌∷◌, IfOk, IfErr, if◌then◌else◌};
ghost use Rattle.motions.specs.ListedSizes.{IsSmallWithin};
ghost use Rattle.motions.specs.Views.{motion_of};
ghost use Rattle.cif_symops.specs.Words.{Word, opening};
ghost use Rattle.cif_symops.specs.Scanning.{word_of};
ghost use Rattle.cif_symops.specs.Operations.{IsOperation, IsMisread, AreKept, IsKeptWithin};
ghost use Rattle.cif_symops.specs.Layout.{operations};
ghost use Rattle.cif_symops.specs.Answers.{IsGiven};

use crate::fault::CifFault;
use crate::position::position_of;
use crate::word::{Form, Token};
use motions::{Listed, Motion3};
use std::alloc::{AllocFailed, Global};
use triplets::{TextKind, read_triplet};

/// What is wrong with an operation, and where in the file.
#[derive(Clone, Copy, Debug, PartialEq, Eq)]
pub struct Misread {
    pub offset: usize,
    pub kind: TextKind,
}

/// The operations so far, up to the first that is no triplet.
#[derive(Drop)]
pub struct Operations {
    pub read: Vec<Motion3>,
    pub fault: Option<Misread>,
}

/// Reads the operation that a word is.
fn read_operation(bytes: &[u8], token: Token) -> Result<Motion3, Misread>
    requires few { length bytes.now ≤ 16777216 }
    requires content { token.start + opening token.form ≤ token.end }
    requires within { token.end ≤ length bytes.now }
    ensures found { IfOk result (λ m. IsOperation (word_of bytes.now token) (motion_of m)) }
    ensures small { IfOk result (λ m. IsSmallWithin 9 (motion_of m)) }
    ensures fault { IfErr result (λ f. IsMisread (word_of bytes.now token) f.offset f.kind) }
    ensures place { IfErr result (λ f. f.offset ≤ length bytes.now) }
{
    if token.form == Form::TextField {
        return Err(Misread {
            offset: token.start,
            kind: TextKind::UnknownSign,
        });
    }
    match read_triplet(token.content(bytes)) {
        Ok(motion) => Ok(motion),
        Err(fault) => Err(Misread {
            offset: token.start + token.form.opening() + fault.place - 1,
            kind: fault.kind,
        }),
    }
}

impl Operations {
    /// No operation yet.
    pub fn new(alloc: Global) -> Self
        ensures kept { AreKept [] result }
        ensures within { IsKeptWithin 0 result }
    {
        Operations {
            read: Vec::new(alloc),
            fault: None,
        }
    }

    /// Reads one more operation.
    fn add(&mut self, bytes: &[u8], token: Token) -> Result<(), AllocFailed<Motion3>>
        requires few { length bytes.now ≤ 16777216 }
        requires content { token.start + opening token.form ≤ token.end }
        requires within { token.end ≤ length bytes.now }
        ensures kept { IfOk result (λ _. (ws : List Word)
            → AreKept ws self.old → AreKept (ws ++ word_of bytes.now token ∷ []) self.new) }
        ensures within { IsKeptWithin (length bytes.now) self.old →
            IsKeptWithin (length bytes.now) self.new }
    {
        match self.fault {
            Some(_) => Ok(()),
            None => match read_operation(bytes, token) {
                Ok(motion) => {
                    self.read.push(motion)?;
                    Ok(())
                }
                Err(fault) => {
                    self.fault = Some(fault);
                    Ok(())
                }
            },
        }
    }

    /// Reads one more operation, where the value is one.
    pub fn take(
        &mut self,
        bytes: &[u8],
        token: Token,
        here: bool,
    ) -> Result<(), AllocFailed<Motion3>>
        requires few { length bytes.now ≤ 16777216 }
        requires content { token.start + opening token.form ≤ token.end }
        requires within { token.end ≤ length bytes.now }
        ensures kept { IfOk result (λ _. (ws : List Word)
            → AreKept ws self.old
            → AreKept (if here then ws ++ word_of bytes.now token ∷ [] else ws) self.new) }
        ensures within { IsKeptWithin (length bytes.now) self.old →
            IsKeptWithin (length bytes.now) self.new }
    {
        if here { self.add(bytes, token) } else { Ok(()) }
    }

    /// The operations, or the first fault.
    pub fn finish(self, alloc: Global, bytes: &[u8]) -> Result<Listed, CifFault>
        requires few { length bytes.now ≤ 16777216 }
        requires kept { IsKeptWithin (length bytes.now) self }
        ensures { (ws : List Word) → AreKept ws self → IsGiven bytes.now (operations ws) result }
    {
        match self.fault {
            Some(misread) => {
                let place = position_of(bytes, misread.offset);
                Err(CifFault::Symop {
                    line: place.line,
                    column: place.column,
                    kind: misread.kind,
                })
            }
            None => Ok(Listed {
                ops: self.read,
                centrings: Vec::new(alloc),
                generated: false,
            }),
        }
    }
}
