// The outputs of a program: words, as a format makes them, and bytes that need not be text. What an output does not take is passed over, and what is
// written cannot be promised; the programs' stored outputs hold it.
#![tactic(auto)]

use std::fmt;

#[derive(Clone, Copy)]
pub enum Output {
    Standard,
    Error,
}

impl Output {
    fn descriptor(self) -> i32 {
        match self {
            Output::Standard => 1,
            Output::Error => 2,
        }
    }

    // Bytes as they are.
    pub fn bytes(self, bytes: &[u8]) {
        io::write_all(self.descriptor(), bytes);
    }

    // What a value is in words.
    pub fn words<D: fmt::Display + Drop>(self, value: D) {
        let mut out = self;
        let _ = fmt::Write::write(&mut out, value);
    }
}

impl fmt::Write for Output {
    fn write_str(&mut self, s: &str) -> fmt::Result {
        self.bytes(s.as_bytes());
        Ok(())
    }
}

// A format on the standard output, or on the one that stands before it with a semicolon.
#[macro_export]
macro_rules! say {
    ($format:literal $($rest:tt)*) => {
        $crate::Output::Standard.words(format_args!($format $($rest)*))
    };
    ($to:expr; $($arg:tt)+) => {
        $to.words(format_args!($($arg)+))
    };
}
