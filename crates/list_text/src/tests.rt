// Paths of more than 64 bytes, in texts of the caller's own.
use super::*;
use std::test::Fail;

// A name of 70 bytes.
const NAME: &str = "a_part_whose_name_is_by_itself_longer_than_all_of_the_path_of_a_body__";

#[test]
fn path_in_an_array(rt: HostRuntime) -> Result<(), Fail> {
    let mut out = Vec::new(rt.alloc());
    let mut body = Listing::with_path(&mut out, ArrayString::<74>::new());
    let mut part = body.part(NAME)?;
    part.element(10)?.field("id", 7)?;
    assert!(rt; part.element(100).is_err(), "75 bytes in 74");
    assert!(rt; part.part("name").is_err(), "75 bytes in 74");
    part.part("nam")?.value(8)?;
    assert_eq!(rt;
        out.as_slice(),
        format!(in rt.alloc(); "{NAME}[10].id 7\n{NAME}.nam 8\n")?.as_bytes()
    );
    Ok(())
}

#[test]
fn path_that_grows(rt: HostRuntime) -> Result<(), Fail> {
    let mut out = Vec::new(rt.alloc());
    let mut body = Listing::with_path(&mut out, String::new(rt.alloc()));
    let mut part = body.part(NAME)?;
    let mut element = part.element(usize::MAX)?;
    let mut last = element.part(NAME)?;
    last.value(7)?;
    drop(last);
    drop(element);
    drop(part);
    drop(body);
    let lines = format!(in rt.alloc(); "{NAME}[18446744073709551615].{NAME} 7\n")?;
    assert_eq!(rt; out.as_slice(), lines.as_bytes());
    Ok(())
}

#[test]
fn path_of_64_bytes(rt: HostRuntime) -> Result<(), Fail> {
    let mut out = Vec::new(rt.alloc());
    let mut body = Listing::new(&mut out);
    assert_eq!(rt;
        body.part(NAME).err().map(|e| e.kind()),
        Some(ErrorKind::StorageFull)
    );
    let name = NAME.get(..61).ok_or("too short")?;
    let mut part = body.part(name)?;
    assert_eq!(rt;
        part.element(10).err().map(|e| e.kind()),
        Some(ErrorKind::StorageFull)
    );
    part.element(1)?.value(7)?;
    assert_eq!(rt;
        out.as_slice(),
        format!(in rt.alloc(); "{name}[1] 7\n")?.as_bytes()
    );
    Ok(())
}
