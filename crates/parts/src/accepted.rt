// A sheet whose parts are read.
ghost use Rattle.parts.specs.Answers.{Accepted};

use crate::SheetParts;

// A sheet that refusals 1 to 4 do not turn down.
#[derive(Clone, Copy)]
pub struct AcceptedSheet<'a> {
    pub parts: SheetParts<'a>,
    pub ghost accepted: { Accepted parts.bytes.now },
}
