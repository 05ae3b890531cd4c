//! First uses of crates, as their README.md has them.
use bus_canon::{distinguish, read_canon, write_canon};
use bus_complete_test::Exchanges;
use bus_legal::{Entries, Legality, Numbers, Rule, RuleList, normalise, setup_of};
use bus_profile::read_profile;
use bus_terminal::{Answer, Event, Terminal, WordPlace};
use bus_word::{Bus, Cell, Command, Kind, Raw, cell_of};
use csv_rows::{CsvFault, read_rows};
use drawing_boxes::Caption;
use line_format::{FieldKind, Lines, bit_line, put_number_line};
use message_names::{MessageNames, NamedCells};
use refused_lines::{misfit_of, refused_lines};
use rt1553::{canonical, load};
use rt1553_acceptance::label_of;
use rt1553_differ::{differences, explain};
use rt1553_draw::{DrawnScript, draw};
use rt1553_expand::{Expanded, ScriptFor, expand, gather};
use rt1553_export::export_table;
use rt1553_files::escaped;
use rt1553_import::import_table;
use rt1553_lint::lint;
use rt1553_results::{compare_results, read_results};
use rt1553_toml::toml_of;
use rt1553_tool::read_word_line;
use rt1553_verify::verify;
use spare_entries::{Setting, is_spare_setting};
use std::test::Fail;
use terminal_exchanges::{events_of, transmit};
use terminal_state::{Decoded, GapEnd, InProgress};
use toml_places::{array_places, key_place, statements_of};
use tool_names::names_in;

#[test]
fn words_of_the_bus(rt: HostRuntime) {
    let word = Raw::of(Kind::Com, 0x2c22);
    let command = Command::of(word.bits);
    let is_ours = word.is_for(5, true);
    // the terminal is to transmit two words of subaddress 1
    let cell = cell_of(command);
    assert!(rt; is_ours);
    assert_eq!(rt; cell, Some(Cell::OwnTransmit(1, 2)));
    assert!(rt; command.transmit());
}

#[test]
fn texts_of_lines(rt: HostRuntime) -> Result<(), Fail> {
    let read = bit_line(Lines::of(b"bit 1\nword beef\n"), b"bit");
    let bit = read.map(|r| r.0).ok();
    let mut text = Vec::new(rt.alloc());
    put_number_line(&mut text, b"word", FieldKind::Word, 0xbeef)?;
    assert_eq!(rt; bit, Some(true));
    assert_eq!(rt; text.as_slice(), b"word beef\n".as_slice());
    Ok(())
}

#[test]
fn entries_of_a_profile(rt: HostRuntime) -> Result<(), Fail> {
    let rule = Rule {
        own: true,
        broadcast: false,
        receive: true,
        transmit: false,
        subaddresses: 1,
        counts: 1,
        legal: true,
    };
    let rules = Entries::of(vec![in rt.alloc(); rule]?);
    let first = rules.as_slice().first();
    let subaddresses = Numbers {
        bits: 0b111,
        first: 1,
    };
    assert!(rt; first.is_some());
    assert_eq!(rt; subaddresses.bits, 7);
    Ok(())
}

#[test]
fn a_profile_text(rt: HostRuntime) {
    let address = match read_profile(rt.alloc(), b"address = 5") {
        Ok(profile) => Some(profile.address),
        Err(_) => None,
    };
    assert_eq!(rt; address, Some(5));
}

#[test]
fn what_a_profile_means(rt: HostRuntime) {
    let Ok(profile) = read_profile(rt.alloc(), b"address = 5") else {
        panic!(rt; "the profile is refused");
    };
    let normal = normalise(&profile);
    let is_legal = normal.legal(Cell::OwnTransmit(1, 2));
    let mut terminal = Terminal::power_up(normal.setup(), normal);
    // the same terminal over the profile's own entries, asked one by one
    let mut by_rules = Terminal::power_up(setup_of(&profile), RuleList::of(&profile));
    assert!(rt; !is_legal);
    terminal.take(Event::Gap(Bus::A));
    by_rules.take(Event::Gap(Bus::A));
}

#[test]
fn events_and_places(rt: HostRuntime) {
    let gap = Event::Gap(Bus::B);
    let place = WordPlace::of(3, 32);
    assert!(rt; matches!(gap, Event::Gap(Bus::B)));
    assert!(rt; place.is_some());
}

#[test]
fn an_exchange(rt: HostRuntime) {
    // the terminal of address 5 transmits two words of subaddress 1, in three slots
    let exchange = transmit(5, 1, 2, 3);
    let events = events_of(exchange);
    assert_eq!(rt; events.as_slice().len(), 5);
}

#[test]
fn a_message_in_progress(rt: HostRuntime) {
    let mut message = InProgress::none();
    message.start(Bus::A, Decoded::of(Command::of(0x0821)));
    message.follow(Bus::A, 1, Some(Raw::of(Kind::Dat, 0x1234)));
    let end = message.end_at_gap(Bus::A);
    assert!(rt; matches!(end, GapEnd::Complete(_)));
}

#[test]
fn a_terminal(rt: HostRuntime) -> Result<(), Fail> {
    let normal = load(rt.alloc(), b"address = 5")?;
    let mut terminal = Terminal::power_up(normal.setup(), normal);
    terminal.take(Event::Word(Bus::A, Raw::of(Kind::Com, 0x2c02)));
    terminal.take(Event::Gap(Bus::A));
    let status = match terminal.step(Event::Slot) {
        Answer::Sends(sent) => Some(sent.bits),
        _ => None,
    };
    assert_eq!(rt; status, Some(0x2800));
    Ok(())
}

#[test]
fn a_canonical_text(rt: HostRuntime) -> Result<(), Fail> {
    let first = canonical(rt.alloc(), b"address = 5")?;
    let second = canonical(rt.alloc(), b"address = 6")?;
    let (text, other) = (first.as_slice(), second.as_slice());
    let ours = read_canon(text)?;
    let theirs = read_canon(other)?;
    let script = distinguish(&ours, &theirs);
    let written = write_canon(rt.alloc(), &ours)?;
    assert!(rt; script.is_some());
    assert_eq!(rt; written.as_slice(), text);
    Ok(())
}

#[test]
fn the_acceptance_test(rt: HostRuntime) -> Result<(), Fail> {
    let normal = load(rt.alloc(), b"address = 5")?;
    let mut exchanges = Exchanges::new(&normal);
    let first = exchanges.next();
    assert!(rt; first.is_some());
    Ok(())
}

#[test]
fn two_profiles(rt: HostRuntime) -> Result<(), Fail> {
    let normal = load(rt.alloc(), b"address = 5")?;
    let other = load(rt.alloc(), b"address = 6")?;
    let table = explain(rt.alloc(), &normal, None)?;
    let found = differences(rt.alloc(), &normal, &other)?;
    assert!(rt; !table.as_str().is_empty());
    assert_eq!(rt; found.len(), 1);
    Ok(())
}

#[test]
fn a_script_that_states_its_answers(rt: HostRuntime) -> Result<(), Fail> {
    let normal = load(rt.alloc(), b"address = 5")?;
    let script = b"A c 2c02\nA gap\nslot\n#> A s 2800\n";
    let wrong = verify(rt.alloc(), &normal, script)?;
    assert!(rt; wrong.is_empty());
    Ok(())
}

#[test]
fn what_an_exchange_tries(rt: HostRuntime) -> Result<(), Fail> {
    let normal = load(rt.alloc(), b"address = 5")?;
    // what the transmit command 2c22 of address 5 tries
    let label = label_of(&normal, 0x2c22);
    assert!(rt; !label.as_str().is_empty());
    Ok(())
}

#[test]
fn rows_of_csv(rt: HostRuntime) -> Result<(), Fail> {
    let rows = read_rows(rt.alloc(), b"number,reply\n1,\"28\"00\n");
    let Err(CsvFault::NotCsv(place)) = rows else {
        return Err("read")?;
    };
    assert_eq!(rt; (place.row, place.column), (2, 2));
    Ok(())
}

#[test]
fn the_test_as_a_table(rt: HostRuntime) -> Result<(), Fail> {
    let normal = load(rt.alloc(), b"address = 5")?;
    let results = read_results(rt.alloc(), b"number,reply\n1,2800\n")?;
    let comparison = compare_results(rt.alloc(), &normal, &results)?;
    let is_same = comparison.passes();
    assert!(rt; !is_same);
    Ok(())
}

#[test]
fn a_profile_in_toml(rt: HostRuntime) -> Result<(), Fail> {
    let normal = load(rt.alloc(), b"address = 5")?;
    let text = toml_of(rt.alloc(), &normal)?;
    assert!(rt; !text.as_str().is_empty());
    Ok(())
}

#[test]
fn a_table_of_a_terminal(rt: HostRuntime) -> Result<(), Fail> {
    let normal = load(rt.alloc(), b"address = 5")?;
    let table = export_table(rt.alloc(), &normal)?;
    assert!(rt; !table.as_str().is_empty());
    Ok(())
}

#[test]
fn a_word_by_its_fields(rt: HostRuntime) -> Result<(), Fail> {
    let line = read_word_line(b"c 2c22");
    assert!(rt; line.is_ok());
    Ok(())
}

#[test]
fn what_is_wrong(rt: HostRuntime) -> Result<(), Fail> {
    let findings = lint(rt.alloc(), b"adress = 5\n")?;
    assert!(rt; !findings.is_empty());
    Ok(())
}

#[test]
fn a_drawing(rt: HostRuntime) -> Result<(), Fail> {
    let normal = load(rt.alloc(), b"address = 5")?;
    let script = DrawnScript {
        text: b"A c 2c02\nA gap\nslot\n",
        sources: None,
    };
    let svg = draw(rt.alloc(), &normal, None, script)?;
    assert!(rt; !svg.as_str().is_empty());
    Ok(())
}

#[test]
fn a_box(rt: HostRuntime) {
    let caption = Caption::of_word(Raw::of(Kind::Com, 0x2c02), false);
    let width = caption.width();
    assert!(rt; 80 < width);
}

#[test]
fn lines_that_are_refused(rt: HostRuntime) -> Result<(), Fail> {
    let found = refused_lines(rt.alloc(), b"slot\nA gup\n")?;
    let misfit = misfit_of(b"A gup");
    let first = found.as_slice().first();
    assert_eq!(rt; first.map(|refused| refused.line), Some(2));
    assert_eq!(rt; misfit.map(|misfit| misfit.column), Some(3));
    Ok(())
}

#[test]
fn texts_that_are_printed(rt: HostRuntime) -> Result<(), Fail> {
    let shown = escaped(rt.alloc(), b"a\x1bb\n")?;
    assert_eq!(rt; shown.as_str(), "a\\u{1b}b\\n");
    Ok(())
}

#[test]
fn a_key_without_effect(rt: HostRuntime) -> Result<(), Fail> {
    let Ok(profile) = read_profile(rt.alloc(), b"address = 5\nvector = 7\n") else {
        panic!(rt; "the profile is refused");
    };
    let spare = is_spare_setting(rt.alloc(), &profile, Setting::Vector)?;
    assert!(rt; spare);
    Ok(())
}

#[test]
fn messages_of_a_script(rt: HostRuntime) -> Result<(), Fail> {
    let nobody = ScriptFor::Terminal(None);
    let expanded = expand(rt.alloc(), b"A rx 5 3 1: 0001\n", &nobody)?;
    let gathered = gather(rt.alloc(), b"A c 2c02\nA gap\nslot\n", &nobody)?;
    let Expanded::Script(script) = expanded else {
        panic!(rt; "the message is refused");
    };
    assert_eq!(rt;
        script.as_slice(),
        b"A c 2861\nA d 0001\nA gap\nslot\n".as_slice()
    );
    let Some(messages) = gathered else {
        panic!(rt; "the script is refused");
    };
    assert_eq!(rt; messages.as_slice(), b"A mode 5 2 tx\n".as_slice());
    Ok(())
}

#[test]
fn a_table_of_a_document(rt: HostRuntime) {
    let imported = import_table(
        rt.alloc(),
        b"kind,value,subaddress,words\naddress,5,,\nreceive,,1-3,2\n",
    );
    let Ok(imported) = imported else {
        panic!(rt; "the table is refused");
    };
    assert!(rt; read_profile(rt.alloc(), imported.profile.as_str().as_bytes()).is_ok());
}

#[test]
fn a_name(rt: HostRuntime) -> Result<(), Fail> {
    let mut names = MessageNames::new(rt.alloc());
    let cells = NamedCells {
        own: true,
        broadcast: false,
        receive: 0b100,
        transmit: 0,
        counts: 0b10,
        codes: 0,
    };
    names.add(String::from_str(rt.alloc(), "settings")?, cells)?;
    let name = names.name_of(Cell::OwnReceive(3, 2));
    assert_eq!(rt; name, Some("settings"));
    assert_eq!(rt; names.name_of(Cell::OwnReceive(3, 7)), Some("settings"));
    assert_eq!(rt; names.name_of(Cell::OwnReceive(2, 2)), None);
    Ok(())
}

#[test]
fn the_names_of_a_table(rt: HostRuntime) -> Result<(), Fail> {
    let names = names_in(
        rt.alloc(),
        b"kind,value,subaddress,words,code,name\naddress,5,,,,\nreceive,,1-3,2,,speed\nmode,,,,1,time tick\n",
    )?;
    let name = names.name_of(Cell::OwnReceive(3, 2));
    assert_eq!(rt; name, Some("speed"));
    assert_eq!(rt; names.name_of(Cell::OwnMode(1)), Some("time tick"));
    assert_eq!(rt; names.name_of(Cell::BroadMode(1)), None);
    Ok(())
}

#[test]
fn statements_of_a_text(rt: HostRuntime) -> Result<(), Fail> {
    let text = "a = [1, 2]\n[b.c]\n[[d]]\n";
    let found = statements_of(rt.alloc(), text)?;
    let mut places = Vec::new(rt.alloc());
    for statement in &found {
        places.push(statement.at)?;
    }
    assert_eq!(rt; places.as_slice(), [0usize, 11, 17].as_slice());
    Ok(())
}

#[test]
fn statements_that_give(rt: HostRuntime) -> Result<(), Fail> {
    let text = "[[rule]]\n[[rule]]\ntitle = 1\n[[rule]]\nwords = 2\n[title]\n";
    let statements = statements_of(rt.alloc(), text)?;
    let title = key_place(&statements, "title");
    let rules = array_places(rt.alloc(), &statements, "rule")?;
    let third = rules.entry(2);
    let words = rules.name(2, "words");
    assert_eq!(rt; title, Some(5));
    assert_eq!(rt; third, Some(3));
    assert_eq!(rt; words, Some(4));
    Ok(())
}
