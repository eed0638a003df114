//! The options after a call.

ghost use Rattle.std.specs.Prelude.{◌≡◌};
ghost use Rattle.msgq_cli.specs.Options.{no_options, once, with_value, with_option, options_of};
ghost use Rattle.msgq_cli.specs.Options.{fits};
ghost use Rattle.msgq_cli.specs.Unread.{IsRead};
ghost use Rattle.schedules.specs.Words.{texts};

use crate::mistake::{Expected, Optional, Unread};
use schedules::{is_word, mode, number};

/// Which options stand after a call, and their values.
#[derive(Clone, Copy)]
pub(crate) struct Options {
    pub create: bool,
    pub excl: bool,
    pub nowait: bool,
    pub noerror: bool,
    pub mode: Option<u16>,
    pub uid: Option<u32>,
    pub gid: Option<u32>,
}

impl Options {
    /// What the words of a line say from the one of this number on, each of which is an option that
    /// the call knows and no other repeats.
    pub(crate) fn read(call: Optional, number: usize, words: &[&[u8]]) -> Result<Options, Unread>
        ensures { IsRead result (options_of call (texts words.now)) }
    {
        let mut options = Options::none();
        let mut unfit = None;
        let mut number = number;
        for word in words {
            let Some(more) = options.with(word) else {
                return Err(Unread::at(unfit.unwrap_or(number), Expected::OptionOf(call)));
            };
            if unfit.is_none() && !more.fits(call) {
                unfit = Some(number);
            }
            options = more;
            number = number.saturating_add(1);
        }
        if options.fits(call) {
            Ok(options)
        } else {
            Err(Unread::at(unfit.unwrap_or(number), Expected::OptionOf(call)))
        }
    }

    /// No options.
    fn none() -> Options
        ensures { result ≡ no_options }
    {
        Options {
            create: false,
            excl: false,
            nowait: false,
            noerror: false,
            mode: None,
            uid: None,
            gid: None,
        }
    }

    /// One option more, which none of these repeats.
    fn with(self, word: &[u8]) -> Option<Options>
        ensures { result ≡ with_option self word.now }
    {
        if is_word(word, b"create") && !self.create {
            return Some(Options {
                create: true,
                ..self
            });
        }
        if is_word(word, b"excl") && !self.excl {
            return Some(Options { excl: true, ..self });
        }
        if is_word(word, b"nowait") && !self.nowait {
            return Some(Options {
                nowait: true,
                ..self
            });
        }
        if is_word(word, b"noerror") && !self.noerror {
            return Some(Options {
                noerror: true,
                ..self
            });
        }
        self.with_value(word)
    }

    /// One option with a value more.
    fn with_value(self, word: &[u8]) -> Option<Options>
        ensures { result ≡ with_value self word.now }
    {
        if let Some(value) = word.strip_prefix(b"mode=") {
            let mode = Some(mode(value)?);
            return once(self.mode, Options { mode, ..self });
        }
        if let Some(value) = word.strip_prefix(b"uid=") {
            let uid = Some(number(value)?);
            return once(self.uid, Options { uid, ..self });
        }
        if let Some(value) = word.strip_prefix(b"gid=") {
            let gid = Some(number(value)?);
            return once(self.gid, Options { gid, ..self });
        }
        None
    }

    /// Whether a call knows them all.
    fn fits(&self, call: Optional) -> bool
        ensures { result ≡ fits call self.now }
    {
        let ids = self.uid.is_some() || self.gid.is_some();
        match call {
            Optional::Get => !(self.nowait || self.noerror || ids),
            Optional::Send => {
                !(self.create || self.excl || self.noerror || self.mode.is_some() || ids)
            }
            Optional::Receive => !(self.create || self.excl || self.mode.is_some() || ids),
            Optional::Set => !(self.create || self.excl || self.nowait || self.noerror),
        }
    }
}

/// The options, where the value is the first of its name.
fn once<T: Copy>(said: Option<T>, options: Options) -> Option<Options>
    ensures { result ≡ once said options }
{
    if said.is_some() { None } else { Some(options) }
}
