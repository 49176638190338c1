//! Asking a question about a record text.
ghost use Rattle.std.specs.Prelude.{◌≡◌, ◌⊎◌, true, Ok, Err, IfErr, IfOk, IfSome, IsErrOf, OnErr, OnOk, ◌+◌, map, string_bytes};
ghost use Rattle.std.specs.Io.KnownBytes.{IsAtEnd};
ghost use Rattle.tk_record_text.specs.Text.{IsAnswer};
ghost use Rattle.tk_record_text.specs.declared.reading.ReadFault.TheVariants as read_faults;
ghost use Rattle.tk_record_text.specs.declared.reading.TheConstants.{MAX_TEXT};
ghost use Rattle.tk_streams.specs.Stream.{ConsumesUpTo};
ghost use Rattle.tk_streams.specs.declared.transfers.TheConstants.{CHUNK};
ghost use Rattle.tk_explanations.specs.Explained.{IsExplained};
ghost use Rattle.testkit_questions.specs.Asked.{AddsAnswer, AddsPrefix, IsOfWords, IsReadInTime, IsReadRefusal, IsRefusal};
ghost use Rattle.testkit_questions.specs.Explanations.{IsResponseTo};

use crate::explanations::{explain, write_answer};
use crate::faults::AskFault;
use crate::questions::Request;
use crate::reading::read_request;
use std::alloc::Global;
use tk_explanations::ExplainFault;
use tk_record::Record;
use tk_record_text::{ReadFault, read_record};
use tk_streams::{Source, Target};

// Reads the record of the source's text.
fn read_input<S: Source>(alloc: Global, source: &mut S) -> Result<Record, AskFault>
    ensures answer { IfOk result (λ read. IfSome (S.remaining source.old) (λ input.
        IsAnswer input (Ok read))) }
    ensures end { OnOk result (IsAtEnd (S.remaining source.new)) }
    ensures refusal { IfErr result (λ fault. IsReadRefusal (S.remaining source.old) fault) }
    ensures device { IsErrOf result (AskFault.Read read_faults.Device)
        → S.broken source.new ≡ true }
    ensures stops { OnErr result
        (ConsumesUpTo (MAX_TEXT + CHUNK) (S.remaining source.old) (S.remaining source.new)) }
{
    match read_record(alloc, source) {
        Ok(record) => Ok(record),
        Err(ReadFault::Memory) => Err(AskFault::Memory),
        Err(fault) => Err(AskFault::Read(fault)),
    }
}

// Writes what is asked for about a record.
fn respond<T: Target>(
    alloc: Global,
    record: &Record,
    request: &Request,
    target: &mut T,
) -> Result<bool, ExplainFault>
    ensures written { IsExplained (IsResponseTo request.now «record».now)
        (T.contents target.old) (T.contents target.new) result }
    ensures unwritten { IsErrOf result ExplainFault.Memory → target.new ≡ target.old }
    ensures device { IsErrOf result ExplainFault.Device → T.broken target.new ≡ true }
{
    if request.is_explained {
        explain(alloc, record, &request.question, target)
    } else {
        write_answer(alloc, record, &request.question, target)
    }
}

/// Answers the question that the words ask about the record whose text the source gives, and says
/// whether the answer is a yes: false where a match says no, or an expectation fails. After the
/// word `explain` it writes below the answer why it is the answer.
///
/// The words are judged before the input is read. Nothing is written before all memory was had:
/// executions, lists, reports and explanations then go out in pieces of 64 KiB, and other answers
/// as a whole.
///
/// # Errors
/// `Question`, `Word` or `Condition` for bad words, `Read` for an input that is no record text or a
/// broken source, `Device` where the target broke, or `Memory`. Only at `Device` was something
/// written: a prefix of the answer.
pub fn ask<S: Source, T: Target>(
    alloc: Global,
    words: &[String],
    source: &mut S,
    target: &mut T,
) -> Result<bool, AskFault>
    ensures answer { IfOk result (λ is_yes. IfSome (S.remaining source.old) (λ input.
        AddsAnswer (map string_bytes words.now) input is_yes
        (T.contents target.old) (T.contents target.new))) }
    ensures end { OnOk result (IsAtEnd (S.remaining source.new)) }
    ensures unread { IfErr result (λ fault. IsOfWords fault → source.new ≡ source.old) }
    ensures refusal { IfErr result (λ fault.
        IsRefusal (map string_bytes words.now) (S.remaining source.old) fault) }
    ensures unwritten { IfErr result (λ fault.
        (fault ≡ AskFault.Device) ⊎ (target.new ≡ target.old)) }
    ensures device { IsErrOf result AskFault.Device → T.broken target.new ≡ true }
    ensures prefix { IsErrOf result AskFault.Device → IfSome (S.remaining source.old) (λ input.
        AddsPrefix (map string_bytes words.now) input
        (T.contents target.old) (T.contents target.new)) }
    ensures source_device { result ≡ Err (AskFault.Read read_faults.Device)
        → S.broken source.new ≡ true }
    ensures stops { IsReadInTime (S.remaining source.old) (S.remaining source.new) }
{
    let request = read_request(alloc, words)?;
    let recorded = read_input(alloc, source)?;
    let is_yes = respond(alloc, &recorded, &request, target)?;
    Ok(is_yes)
}
