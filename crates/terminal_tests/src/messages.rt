//! The messages of runs, as rows.
use bus_legal::Normal;
use bus_terminal::Event;
use bus_word::{Bus, Kind, Raw};
use message_rows::row_text;
use rt1553::load;
use script_lines::read_event;
use std::alloc::{AllocError, Global};
use std::test::Fail;
use terminal_messages::{ClosedMessages, KeptMessage, MessageWatch};

/// Adds messages that are over.
fn push_closed(messages: &mut Vec<KeptMessage>, closed: ClosedMessages) -> Result<(), AllocError> {
    for message in [closed.first, closed.second, closed.unheard] {
        if let Some(message) = message {
            messages.push(message)?;
        }
    }
    Ok(())
}

/// The messages of a run by a script.
fn messages_of(
    alloc: Global,
    normal: &Normal,
    script: &str,
) -> Result<Vec<KeptMessage>, AllocError> {
    let mut watch = MessageWatch::power_up(normal.setup(), *normal);
    let mut messages = Vec::new(alloc);
    let mut number = 0u64;
    for line in script.lines() {
        number = number.saturating_add(1);
        if let Ok(Some(event)) = read_event(line.as_bytes()) {
            push_closed(&mut messages, watch.step(event, number))?;
        }
    }
    push_closed(&mut messages, watch.end())?;
    Ok(messages)
}

/// The rows as text.
fn text_of(alloc: Global, normal: &Normal, script: &str) -> Result<String, AllocError> {
    let messages = messages_of(alloc, normal, script)?;
    let mut text = String::new(alloc);
    for message in messages.as_slice() {
        text.push_str(row_text(alloc, message, None)?.as_str())?;
    }
    Ok(text)
}

/// A profile of two messages.
const PROFILE: &[u8] =
    b"address = 5\n[[rule]]\ndirection = \"both\"\nsubaddresses = \"3\"\ncounts = 2\n";

#[test]
fn messages_as_rows(rt: HostRuntime) -> Result<(), Fail> {
    let normal = load(rt.alloc(), PROFILE)?;
    let script = concat!(
        "A c 2862\nA d 0011\nA d 0022\nA gap\nslot\n",
        "A c 2c02\nA gap\nslot\n",
        "A c 3c22\nA gap\nA c 3800\nA d 0001\nA gap\n",
        "A c 2862\nA d 0011\nA gap\nA d 0022\nA gap\n"
    );
    let text = text_of(rt.alloc(), &normal, script)?;
    let lines = concat!(
        "     1       1 A   rx         5   3     2 done; data 0011 0022; status 2800; hand receive own 03 0011 0022\n",
        "     2       6 A   mode       5   2       done; status 2800\n",
        "     3       9 A   tx         7   1     2 other; data 0001\n",
        "     4      14 A   rx         5   3     2 in error, gap within; data 0011 0022\n"
    );
    assert_eq!(rt; text.as_str(), lines);
    Ok(())
}

#[test]
fn messages_on_both_buses(rt: HostRuntime) -> Result<(), Fail> {
    let normal = load(rt.alloc(), PROFILE)?;
    let script = concat!(
        "A c 2862\nA d 0011\nB c 3822\nB d 0001\nA d 0022\nA gap\nslot\nB gap\n",
        "A c 2862\nB c 2c02\nB gap\nB c 2c02\nslot\n"
    );
    let text = text_of(rt.alloc(), &normal, script)?;
    let lines = concat!(
        "     1       1 A   rx         5   3     2 done; data 0011 0022; status 2800; hand receive own 03 0011 0022\n",
        "     2       3 B   rx         7   1     2 other; data 0001\n",
        "     3       9 A   rx         5   3     2 superseded\n",
        "     5      12 B   mode       5   2       ignored, during a reply\n",
        "     4      10 B   mode       5   2       done; status 2800\n"
    );
    assert_eq!(rt; text.as_str(), lines);
    Ok(())
}

#[test]
fn words_that_a_row_has_no_room_for(rt: HostRuntime) -> Result<(), Fail> {
    let normal = load(rt.alloc(), PROFILE)?;
    let mut script = String::from_str(rt.alloc(), "A c 2862\n")?;
    for _word in 0..70 {
        script.push_str("A d 0001\n")?;
    }
    let messages = messages_of(rt.alloc(), &normal, script.as_str())?;
    let Some(message) = messages.as_slice().first() else {
        return Ok(());
    };
    assert_eq!(rt; message.words.len(), 64);
    assert_eq!(rt; message.left_out, 6);
    Ok(())
}

#[test]
fn message_of_a_command(rt: HostRuntime) -> Result<(), Fail> {
    let normal = load(rt.alloc(), PROFILE)?;
    let mut watch = MessageWatch::power_up(normal.setup(), normal);
    watch.step(Event::Word(Bus::A, Raw::of(Kind::Com, 0x2c02)), 1);
    let closed = watch.end();
    let Some(message) = closed.first else {
        return Ok(());
    };
    let text = row_text(rt.alloc(), &message, None)?;
    let line = "     1       1 A   mode       5   2       open\n";
    assert_eq!(rt; text.as_str(), line);
    Ok(())
}
