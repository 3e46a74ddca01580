use super::*;
use std::alloc::Global;
use std::test::Fail;
use stx_base::Memory;

/// What the words ask for, in one line; `refused` where they are.
fn read(alloc: Global, written: &str) -> Result<String, Memory> {
    let mut words = Vec::new(alloc);
    for word in written.split(' ') {
        words.push(String::from_str(alloc, word)?)?;
    }
    match read_words(alloc, words.as_slice()) {
        Ok(command) => told(alloc, &command),
        Err(WordsFault::Usage) => Ok(String::from_str(alloc, "refused")?),
        Err(WordsFault::Memory) => Err(Memory),
    }
}

fn told(alloc: Global, command: &Command) -> Result<String, Memory> {
    let limits = command.limits;
    let mut line = String::from_str(alloc, command.sheet.as_str())?;
    for param in command.params.as_slice() {
        line.push_str(" ")?;
        line.push_str(param.name.as_str())?;
        line.push_str("=")?;
        line.push_str(param.value.as_str())?;
    }
    let mode = command.mode;
    let (fuel, lexeme, instances) = (limits.fuel, limits.lexeme, limits.instances);
    let rest = format!(in alloc; " {mode:?} {fuel} {lexeme} {instances}")?;
    line.push_str(rest.as_str())?;
    Ok(line)
}

#[test]
fn accepted(rt: HostRuntime) -> Result<(), Fail> {
    let alloc = rt.alloc();
    assert_eq!(rt;
        read(alloc, "s.stx")?.as_str(),
        "s.stx Run 1000000 67108864 256"
    );
    assert_eq!(rt;
        read(
            alloc,
            "--fuel 9 s.stx a=b=c --lexeme=0016 --sample=2 -- é=--check"
        )?
        .as_str(),
        "s.stx a=b=c é=--check Sample(2) 9 16 256"
    );
    assert_eq!(rt;
        read(alloc, "- --check --instances 65536")?.as_str(),
        "- Check 1000000 67108864 65536"
    );
    Ok(())
}

#[test]
fn refused(rt: HostRuntime) -> Result<(), Fail> {
    let alloc = rt.alloc();
    let refused = [
        "--check",
        "s.stx --fuel 0",
        "s.stx --check --sample 2",
        "s.stx x=1 x=2",
        "s.stx x",
        "s.stx -x",
        "s.stx --check=1",
        "s.stx --fuel",
        "s.stx --fuel=1 --fuel=2",
        "s.stx --fuel -- 9",
        "s.stx --help",
        "s.stx --fuel +9",
        "s.stx a:b=1",
        "s.stx --sample 1000001",
        "s.stx --check --check",
        "s.stx --fuel 00000000000000000009",
    ];
    for words in refused {
        assert_eq!(rt; read(alloc, words)?.as_str(), "refused");
    }
    Ok(())
}
