//! Which answers an op may get.
ghost use Rattle.std.specs.Prelude.{◌≡◌};
ghost use Rattle.lw_model.specs.Answers.{get_fits, put_fits, request_fits, visit_fits, unregister_fits, is_waited};
ghost use Rattle.lw_model.specs.Holding.{is_closed, is_sent, is_started};

use lw_model::Answer;

/// What a get may be answered, by the ordinal that is held.
pub fn get_fits(held: Option<u64>, answer: Answer) -> bool
    ensures { result ≡ get_fits held answer }
{
    match (held, answer) {
        (None, Answer::Given { .. }) | (_, Answer::Shut) => true,
        (Some(holds), Answer::Again { ordinal }) => ordinal == holds,
        _ => false,
    }
}

/// What a put may be answered, by the reference count.
pub fn put_fits(references: u64, answer: Answer) -> bool
    ensures { result ≡ put_fits references answer }
{
    match answer {
        Answer::NoChannel => references == 0,
        Answer::Deferred => references == 1,
        Answer::Counted => references > 1,
        _ => false,
    }
}

/// What a write, read or flush may be answered, by the reference count.
pub fn request_fits(references: u64, answer: Answer) -> bool
    ensures { result ≡ request_fits references answer }
{
    match answer {
        Answer::NoChannel => references == 0,
        Answer::Sent => references > 0,
        _ => false,
    }
}

/// What a visit may be answered.
pub fn visit_fits(answer: Answer) -> bool
    ensures { result ≡ visit_fits answer }
{
    matches!(answer, Answer::Started | Answer::Shut)
}

/// What an unregister may be answered.
pub fn unregister_fits(answer: Answer) -> bool
    ensures { result ≡ unregister_fits answer }
{
    matches!(answer, Answer::Began { .. } | Answer::Already)
}

/// What a wait may be answered.
pub fn is_waited(answer: Answer) -> bool
    ensures { result ≡ is_waited answer }
{
    matches!(answer, Answer::Waited)
}

/// What a cast may be answered, and a visit that set out.
pub fn is_started(answer: Answer) -> bool
    ensures { result ≡ is_started answer }
{
    matches!(answer, Answer::Started)
}

/// What a client's last line says.
pub fn is_closed(answer: Answer) -> bool
    ensures { result ≡ is_closed answer }
{
    matches!(answer, Answer::Closed)
}

/// What a request that went to the owner is answered.
pub fn is_sent(answer: Answer) -> bool
    ensures { result ≡ is_sent answer }
{
    matches!(answer, Answer::Sent)
}
