//! Replies and answers in words.

use jb_model::Reply;
use jb_shared::SharedError;
use jb_state::{Answer, Barred, LookError, Summary};
use trial_rows::Words;

/// What a call is answered, or why there is no reply.
pub(crate) fn put_reply(words: &mut Words, reply: &Result<Reply, SharedError>) {
    match reply {
        Ok(reply) => trial_rows::put_reply(words, reply),
        Err(error) => words.debug(error),
    }
}

// The numbers of these messages.
fn put_numbers(words: &mut Words, summaries: &[Summary]) {
    words.word("numbers");
    for summary in summaries {
        words.number(u64::from(summary.number));
    }
}

/// What a look is answered, or why there is no answer: the figures, or the numbers of the messages.
pub(crate) fn put_answer(words: &mut Words, answer: &Result<Answer, LookError>) {
    match answer {
        Ok(Answer::Figures(figures)) => words.debug(figures),
        Ok(Answer::Summaries(summaries)) => put_numbers(words, summaries.as_slice()),
        Err(error) => words.debug(error),
    }
}

/// What a count comes to, or why there is none.
pub(crate) fn put_count(words: &mut Words, count: Result<u32, Barred>) {
    match count {
        Ok(count) => {
            words.number(u64::from(count));
            words.word("unread");
        }
        Err(error) => words.debug(&error),
    }
}
