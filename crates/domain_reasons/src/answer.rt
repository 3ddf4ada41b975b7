//! What the calls of a script came to, in one line.

use explanation_text::TextBuilder;
use explanation_text::wording::put_count;
use script_replay::Reply;
use script_story::{MadeCall, Story, put_domain, refused_calls};
use std::alloc::{AllocError, Global};
use sysmem_tree::Refusal;

/// The answer: how many calls were refused, and what became of each domain.
pub fn answer_of(alloc: Global, story: &Story<'_>) -> TextBuilder {
    let mut words = TextBuilder::new(alloc);
    put_count(&mut words, story.calls.len(), "call", "calls");
    match refused_calls(story) {
        0 => words.put(", none refused"),
        count => words.put(", ").put_number(count).put(" refused"),
    };
    let more = odd_answers(story);
    if more > 0 {
        words
            .put(", ")
            .put_number(more)
            .put(" answered otherwise than ok");
    }
    put_verdicts(&mut words, story);
    words
}

/// How many verdicts were asked for in vain, where the domain's own section doesn't tell why.
fn odd_answers(story: &Story<'_>) -> usize {
    let mut count = 0usize;
    for call in &story.calls {
        if is_odd_answer(story, call) {
            count = count.saturating_add(1);
        }
    }
    count
}

/// Whether a verdict was asked for in vain, where the domain's own section doesn't tell why.
fn is_odd_answer(story: &Story<'_>, call: &MadeCall<'_>) -> bool {
    if !call.asks() {
        return false;
    }
    match call.reply {
        Reply::Refused(Refusal::Pending) => verdict_of(story, call).is_some(),
        Reply::Refused(Refusal::NotSelected | Refusal::DomainFailed) => true,
        _ => false,
    }
}

/// The call after which the domain of a call's node had its verdict.
fn verdict_of(story: &Story<'_>, call: &MadeCall<'_>) -> Option<usize> {
    story.domain_of(call.node?)?.ended
}

/// Puts what became of each domain after a text.
fn put_verdicts(text: &mut TextBuilder, story: &Story<'_>) {
    let all = story.domains.len();
    let most = if all > 9 { 8 } else { all };
    for index in 0..most {
        put_verdict(text, story, index);
    }
    let more = all.saturating_sub(most);
    if more > 0 {
        text.put("; ").put_number(more).put(" more domains");
    }
}

fn put_verdict(text: &mut TextBuilder, story: &Story<'_>, index: usize) {
    if let Some(domain) = story.domains.get(index) {
        text.put("; ");
        put_domain(text, story, domain.root);
        text.put(" ").put(domain.became.word());
    }
}
