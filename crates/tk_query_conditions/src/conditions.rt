//! Conditions on an event.
ghost use Rattle.std.specs.Prelude.{◌≡◌, IfOk, map};
ghost use Rattle.std.specs.Option.{option_copied};
ghost use Rattle.tk_query_conditions.specs.Cond.{Plain, OfKind, With, Test, Container, Id};
ghost use Rattle.tk_query_conditions.specs.CondOf.{cond_of, both};

use std::alloc::{AllocError, Global};
use tk_events::{Kind, Pairs};
use tk_ids::Text;

/// A condition on an event.
#[derive(Debug, Drop)]
pub enum Condition {
    /// Its descriptor is a test.
    Test,
    /// Its descriptor is a container.
    Container,
    /// Its descriptor's id is one segment with the tag `engine`.
    Engine,
    /// The text of its descriptor's id contains this one.
    Id(Text),
    /// Its descriptor has this display name.
    Name(Text),
    /// One of the segments of its descriptor's id has this tag and this value.
    Segment(Text, Text),
    /// It is of this kind.
    Kind(Kind),
    /// It is skipped for this reason.
    Skipped(Text),
    /// It started.
    Started,
    /// It finished successfully.
    Succeeded,
    /// It finished as failed, and with this message where one is named.
    Failed(Option<Text>),
    /// It finished as aborted, and with this message where one is named.
    Aborted(Option<Text>),
    /// It finished with a message that contains this text.
    Message(Text),
    /// It publishes the file that lies at this path.
    File(Text),
    /// It reports these pairs and no others.
    Entry(Pairs),
    /// Each of these holds.
    All(Vec<Condition>),
    /// One of these holds.
    Any(Vec<Condition>),
    /// This one doesn't hold.
    Not(Box<Condition>),
}

/// A condition, and that the id's text contains this one.
fn with_id(alloc: Global, condition: Condition, text: &str) -> Result<Condition, AllocError>
    ensures { IfOk result (λ c. cond_of c ≡ both (cond_of condition) (With Id text.now)) }
{
    let id = Condition::unique_id_substring(alloc, text)?;
    Ok(Condition::All(vec![in alloc; condition, id]?))
}

fn message_text(alloc: Global, message: Option<&str>) -> Result<Option<Text>, AllocError>
    ensures { IfOk result (λ copied. copied ≡ option_copied message.entry) }
{
    match message {
        Some(text) => Ok(Some(Text::copy(alloc, text)?)),
        None => Ok(None),
    }
}

/// Constructors under the names of JUnit's `EventConditions`. Its `test()`, `container()`,
/// `engine()` and `started()` are the variants `Test`, `Container`, `Engine` and `Started`.
impl Condition {
    /// Each of the conditions holds. JUnit: `event`.
    pub fn event(conditions: Vec<Condition>) -> Condition
        ensures { result ≡ Condition.All conditions }
    {
        Condition::All(conditions)
    }

    /// The descriptor is a test whose id contains this text. JUnit: `test` of a text.
    ///
    /// # Errors
    /// `AllocError` where a request for memory is refused.
    pub fn test(alloc: Global, unique_id_substring: &str) -> Result<Condition, AllocError>
        ensures { IfOk result (λ condition.
            cond_of condition ≡ both (Plain Test) (With Id unique_id_substring.now)) }
    {
        with_id(alloc, Condition::Test, unique_id_substring)
    }

    /// The descriptor is a container whose id contains this text. JUnit: `container` of a text.
    ///
    /// # Errors
    /// `AllocError` where a request for memory is refused.
    pub fn container(alloc: Global, unique_id_substring: &str) -> Result<Condition, AllocError>
        ensures { IfOk result (λ condition.
            cond_of condition ≡ both (Plain Container) (With Id unique_id_substring.now)) }
    {
        with_id(alloc, Condition::Container, unique_id_substring)
    }

    /// A descriptor whose id contains this text was registered. JUnit: `dynamicTestRegistered`.
    ///
    /// # Errors
    /// `AllocError` where a request for memory is refused.
    pub fn dynamic_test_registered(
        alloc: Global,
        unique_id_substring: &str,
    ) -> Result<Condition, AllocError>
        ensures { IfOk result (λ condition.
            cond_of condition ≡ both (OfKind Kind.Dynamic) (With Id unique_id_substring.now)) }
    {
        with_id(alloc, Condition::Kind(Kind::Dynamic), unique_id_substring)
    }

    /// The descriptor's id contains this text. JUnit: `uniqueIdSubstring`.
    ///
    /// # Errors
    /// `AllocError` where a request for memory is refused.
    pub fn unique_id_substring(alloc: Global, text: &str) -> Result<Condition, AllocError>
        ensures { IfOk result (λ condition. condition ≡ Condition.Id text.now) }
    {
        Ok(Condition::Id(Text::copy(alloc, text)?))
    }

    /// The descriptor has this display name. JUnit: `displayName`.
    ///
    /// # Errors
    /// `AllocError` where a request for memory is refused.
    pub fn display_name(alloc: Global, name: &str) -> Result<Condition, AllocError>
        ensures { IfOk result (λ condition. condition ≡ Condition.Name name.now) }
    {
        Ok(Condition::Name(Text::copy(alloc, name)?))
    }

    /// The descriptor was skipped for this reason. JUnit: `skippedWithReason`.
    ///
    /// # Errors
    /// `AllocError` where a request for memory is refused.
    pub fn skipped_with_reason(alloc: Global, reason: &str) -> Result<Condition, AllocError>
        ensures { IfOk result (λ condition. condition ≡ Condition.Skipped reason.now) }
    {
        Ok(Condition::Skipped(Text::copy(alloc, reason)?))
    }

    /// The execution finished successfully. JUnit: `finishedSuccessfully`.
    pub fn finished_successfully() -> Condition
        ensures { result ≡ Condition.Succeeded }
    {
        Condition::Succeeded
    }

    /// The execution failed, and with this message where one is given.
    ///
    /// JUnit: `finishedWithFailure`.
    ///
    /// # Errors
    /// `AllocError` where a request for memory is refused.
    pub fn finished_with_failure(
        alloc: Global,
        message: Option<&str>,
    ) -> Result<Condition, AllocError>
        ensures { IfOk result (λ condition.
            condition ≡ Condition.Failed (option_copied message.entry)) }
    {
        Ok(Condition::Failed(message_text(alloc, message)?))
    }

    /// The execution was aborted, and with this message where one is given.
    ///
    /// JUnit: `abortedWithReason`.
    ///
    /// # Errors
    /// `AllocError` where a request for memory is refused.
    pub fn aborted_with_reason(
        alloc: Global,
        message: Option<&str>,
    ) -> Result<Condition, AllocError>
        ensures { IfOk result (λ condition.
            condition ≡ Condition.Aborted (option_copied message.entry)) }
    {
        Ok(Condition::Aborted(message_text(alloc, message)?))
    }

    /// An entry of these pairs, each a key and a value, and no others was published.
    ///
    /// JUnit: `reportEntry`.
    ///
    /// # Errors
    /// `AllocError` where a request for memory is refused.
    pub fn report_entry(alloc: Global, pairs: &[(&str, &str)]) -> Result<Condition, AllocError>
        ensures { IfOk result (λ condition.
            condition ≡ Condition.Entry (map (λ p. (p.0.now, p.1.now)) pairs.now)) }
    {
        let mut copied = Pairs::new(alloc);
        for (key, value) in pairs {
            copied.push(Text::copy(alloc, key)?, Text::copy(alloc, value)?)?;
        }
        Ok(Condition::Entry(copied))
    }

    /// The file at this path was published. JUnit: `fileEntry`.
    ///
    /// # Errors
    /// `AllocError` where a request for memory is refused.
    pub fn file_entry(alloc: Global, path: &str) -> Result<Condition, AllocError>
        ensures { IfOk result (λ condition. condition ≡ Condition.File path.now) }
    {
        Ok(Condition::File(Text::copy(alloc, path)?))
    }
}

/// Constructors of the conditions that JUnit's `EventConditions` has no name for.
impl Condition {
    /// One of the segments of the descriptor's id has this tag and this value, both whole and
    /// without escapes.
    ///
    /// So it holds of the events of the descriptor with this last segment, and of all below it.
    ///
    /// # Errors
    /// `AllocError` where a request for memory is refused.
    pub fn segment(alloc: Global, tag: &str, value: &str) -> Result<Condition, AllocError>
        ensures { IfOk result (λ condition. condition ≡ Condition.Segment tag.now value.now) }
    {
        let tag = Text::copy(alloc, tag)?;
        let value = Text::copy(alloc, value)?;
        Ok(Condition::Segment(tag, value))
    }

    /// The execution finished with a message that contains this text, whatever its status.
    ///
    /// # Errors
    /// `AllocError` where a request for memory is refused.
    pub fn message_contains(alloc: Global, text: &str) -> Result<Condition, AllocError>
        ensures { IfOk result (λ condition. condition ≡ Condition.Message text.now) }
    {
        Ok(Condition::Message(Text::copy(alloc, text)?))
    }
}
