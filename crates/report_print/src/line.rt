//! One line of a report.
ghost use Rattle.report_print.specs.Prints.{PrintsTo};

use crate::halt::Halt;
use io_port::Sink;

/// Puts a line, by one `put`.
pub fn put_line<K: Sink>(sink: &mut K, line: &[u8]) -> Result<(), Halt>
    ensures { PrintsTo K.Sink sink.old sink.new line.now result }
{
    match sink.put(line) {
        Ok(()) => Ok(()),
        Err(_) => Err(Halt::SinkFault),
    }
}
