// The records of the location and exception tables, by value, with code.rs's methods.
ghost use Rattle.std.specs.Prelude.{◌≡◌};
ghost use Rattle.code.specs.Entries.{Kinds, contains, entry_row, kind_number, pushes_exception};

use crate::{CodeRange, ExceptionEntry, HandlerKind, HandlerRow, LocationEntry, lookups};

// A number that is no kind's.
#[derive(Clone, Copy, Debug, PartialEq, Eq)]
pub struct NoKind(pub u32);

impl TryFrom<u32> for HandlerKind {
    type Error = NoKind;

    ghost try_from_gives = { Kinds };

    fn try_from(number: u32) -> Result<Self, NoKind> {
        match number {
            0 => Ok(HandlerKind::Consuming),
            1 => Ok(HandlerKind::Cleanup),
            _ => Err(NoKind(number)),
        }
    }
}

impl From<HandlerKind> for u32 {
    ghost from_gives = { λ kind number. number ≡ kind_number kind };

    fn from(kind: HandlerKind) -> u32 {
        kind as u32
    }
}

impl From<ExceptionEntry> for HandlerRow {
    ghost from_gives = { λ entry row. row ≡ entry_row entry };

    fn from(entry: ExceptionEntry) -> HandlerRow {
        HandlerRow {
            start: entry.start,
            end: entry.end,
            handler: entry.handler,
            depth: u32::from(entry.stack_depth),
            count: u32::from(entry.exception_stack_count),
            kind: u32::from(entry.kind),
        }
    }
}

impl LocationEntry {
    pub fn new(bytecode_offset: u32, range: CodeRange, focus: Option<CodeRange>) -> Self
        ensures { result ≡ record { bytecode_offset = bytecode_offset; range = range; focus = focus } }
    {
        LocationEntry {
            bytecode_offset,
            range,
            focus,
        }
    }

    // The full source range.
    pub fn range(self) -> CodeRange
        ensures { result ≡ self.range }
    {
        self.range
    }
}

impl ExceptionEntry {
    pub fn new(
        start: u32,
        end: u32,
        handler: u32,
        stack_depth: u16,
        exception_stack_count: u16,
        kind: HandlerKind,
    ) -> Self
        ensures { result ≡ record {
          start = start;
          end = end;
          handler = handler;
          stack_depth = stack_depth;
          exception_stack_count = exception_stack_count;
          kind = kind;
        } }
    {
        ExceptionEntry {
            start,
            end,
            handler,
            stack_depth,
            exception_stack_count,
            kind,
        }
    }

    // Whether the exception value is pushed before the handler is entered.
    pub fn pushes_exception(self) -> bool
        ensures { result ≡ pushes_exception self.kind }
    {
        self.kind == HandlerKind::Consuming
    }

    // The handler's offset.
    pub fn handler(self) -> u32
        ensures { result ≡ self.handler }
    {
        self.handler
    }

    // The depth to unwind to.
    pub fn stack_depth(self) -> u16
        ensures { result ≡ self.stack_depth }
    {
        self.stack_depth
    }

    // The frame's exception-stack depth at the region's entry.
    pub fn exception_stack_count(self) -> u16
        ensures { result ≡ self.exception_stack_count }
    {
        self.exception_stack_count
    }

    // Whether an offset is in the protected range.
    pub fn contains(self, offset: u32) -> bool
        ensures { result ≡ contains self offset }
    {
        lookups::covers(self.start, self.end, offset)
    }
}
