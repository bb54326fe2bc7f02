//! Scripts, events and endings are made and let go of.
use ecma_number::JsNumber;
use ecma_runs::*;
use ecma_tree::{JsWord, NoMemory};
use item_list::ItemList;
use std::alloc::Global;
use std::test::Fail;

/// A value of each kind.
fn values(alloc: Global) -> Result<Shows, NoMemory> {
    let text = JsWord::new(alloc, "größe")?;
    let values = [
        Shown::Undefined,
        Shown::Null,
        Shown::Bool(true),
        Shown::Num(JsNumber::NaN),
        Shown::Text(text),
        Shown::Host(7),
        Shown::Handle(0),
        Shown::Error(ErrorKind::Kind),
    ];
    Ok(ItemList::from_array(alloc, values)?)
}

fn free_value(alloc: Global) -> Result<FreeValue, NoMemory> {
    let name = JsWord::new(alloc, "f")?;
    let value = Shown::Host(7);
    Ok(FreeValue { name, value })
}

fn call(alloc: Global) -> Result<Action, NoMemory> {
    let arguments = values(alloc)?;
    Ok(Action::Call(0, Shown::Undefined, arguments))
}

fn script(alloc: Global) -> Result<Script, NoMemory> {
    let meta_url = JsWord::new(alloc, "file:///m.ts")?;
    Ok(Script {
        imports: ItemList::new(alloc),
        meta_url,
        frees: ItemList::new(alloc),
        answers: ItemList::new(alloc),
        actions: ItemList::new(alloc),
    })
}

#[test]
fn scripts_are_made_and_let_go_of(rt: HostRuntime) -> Result<(), Fail> {
    let alloc = rt.alloc();
    let mut script = script(alloc)?;
    script.frees.push(free_value(alloc)?)?;
    script.answers.push(Answer::Return(Shown::Null))?;
    script.actions.push(call(alloc)?)?;
    assert_eq!(rt; script.actions.len(), 1);
    assert_eq!(rt; script.meta_url.as_str(), "file:///m.ts");
    Ok(())
}

#[test]
fn events_are_made_and_let_go_of(rt: HostRuntime) -> Result<(), Fail> {
    let arguments = values(rt.alloc())?;
    assert_eq!(rt; arguments.len(), 8);
    let _event = Event::HostCall(7, Shown::Undefined, arguments);
    Ok(())
}

#[test]
fn endings_are_made_and_let_go_of(rt: HostRuntime) -> Result<(), Fail> {
    let answers = ItemList::from_array(rt.alloc(), [Answer::Return(Shown::Undefined)])?;
    assert_eq!(rt; answers.len(), 1);
    let _ending = Ending::Done(answers);
    Ok(())
}
