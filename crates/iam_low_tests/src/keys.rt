// What keys that nothing gives can turn.
use iam_layers::World;
use iam_open::{Turned, turned_of};
use std::alloc::Global;
use std::test::Fail;

/// A world in which ann has a policy of these statements and asks for `s3:GetObject` on `arn:aws:s3:::b/k`, at second 1000, with these keys.
fn world_of(alloc: Global, statements: &str, keys: &str) -> Result<World, Fail> {
    let document = format!(in alloc;
        "{{\"moment\":1000,\"accounts\":[{{\"id\":\"111122223333\"}}],\
        \"principals\":[{{\"user\":\"arn:aws:iam::111122223333:user/ann\",\
        \"identity\":[{{\"Version\":\"2012-10-17\",\"Statement\":[{statements}]}}]}}],\
        \"actions\":[\"s3:GetObject\"],\
        \"resources\":[{{\"arn\":\"arn:aws:s3:::b/k\",\"account\":\"111122223333\"}}],\"context\":{{{keys}}}}}"
    )?;
    Ok(World::read(alloc, document.as_bytes())?)
}

/// What is said of that request, in a word, and the keys of an example.
fn word_of(alloc: Global, statements: &str, keys: &str) -> Result<String, Fail> {
    let world = world_of(alloc, statements, keys)?;
    if world.principals() == 0 || world.actions() == 0 || world.resources() == 0 {
        return Err("the world has no request".into());
    }
    match turned_of(alloc, &world, 0, 0, 0)? {
        Turned::Always => Ok(String::from_str(alloc, "always")?),
        Turned::Never => Ok(String::from_str(alloc, "never")?),
        Turned::Open => Ok(String::from_str(alloc, "open")?),
        Turned::Possible(shown) => {
            let mut word = format!(in alloc; "possible at {}", shown.moment)?;
            for (name, values) in &shown.own {
                word.push_str(" ")?;
                word.push_str(name.as_str())?;
                word.push_str("=")?;
                for value in values.as_slice() {
                    word.push_str(value.as_str())?;
                }
            }
            Ok(word)
        }
    }
}

/// A statement on this action and everything, with this effect and these conditions.
fn on_all(alloc: Global, effect: &str, conditions: &str) -> Result<String, Fail> {
    Ok(format!(in alloc;
        "{{\"Effect\":\"{effect}\",\"Action\":\"s3:GetObject\",\"Resource\":\"*\",\"Condition\":{{{conditions}}}}}"
    )?)
}

#[test]
fn one_allow(rt: HostRuntime) -> Result<(), Fail> {
    let alloc = rt.alloc();
    let rows = [
        ("", "", "always"),
        (r#""StringEquals":{"k":"a"}"#, "", "possible at 1000 k=a"),
        (r#""StringEquals":{"k":"a"}"#, r#""K":"a""#, "always"),
        (r#""StringEquals":{"k":"a"}"#, r#""k":"b""#, "never"),
        (r#""StringEquals":{"k":"a"}"#, r#""k":[]"#, "never"),
        (r#""StringEquals":{"k":"${q}"}"#, r#""k":[]"#, "never"),
        (r#""StringNotEquals":{"k":"a"}"#, "", "possible at 1000 k="),
        (r#""StringLike":{"k":"a*c"}"#, "", "possible at 1000 k=ac"),
        (r#""StringEquals":{"aws:username":"ann"}"#, "", "always"),
        (r#""StringEquals":{"aws:username":"bob"}"#, "", "never"),
        (
            r#""StringEquals":{"aws:UserName":"${q}"}"#,
            "",
            "possible at 1000 q=ann",
        ),
        (
            r#""NumericGreaterThan":{"k":"5"}"#,
            "",
            "possible at 1000 k=6",
        ),
        (
            r#""Bool":{"aws:MultiFactorAuthPresent":"true"}"#,
            "",
            "possible at 1000 aws:MultiFactorAuthPresent=true",
        ),
        (r#""Null":{"k":"true"}"#, "", "possible at 1000 k="),
        (
            r#""StringEquals":{"k":"a"},"NumericLessThan":{"n":"2"}"#,
            "",
            "possible at 1000 n=1 k=a",
        ),
        (
            r#""DateGreaterThan":{"aws:CurrentTime":"2000"}"#,
            "",
            "possible at 2001",
        ),
        (
            r#""DateLessThan":{"aws:EpochTime":"2000"}"#,
            "",
            "possible at 1000",
        ),
        (r#""DateLessThan":{"aws:EpochTime":"500"}"#, "", "open"),
        (
            r#""DateGreaterThan":{"aws:CurrentTime":"500"},"StringEquals":{"k":"a"}"#,
            "",
            "possible at 1000 k=a",
        ),
        (
            r#""IpAddress":{"aws:SourceIp":"10.0.0.0/8"}"#,
            "",
            "possible at 1000 aws:SourceIp=10.255.255.255",
        ),
        (
            r#""BinaryEquals":{"k":"QUJD"}"#,
            "",
            "possible at 1000 k=QUJD",
        ),
    ];
    for (conditions, keys, want) in rows {
        let statement = on_all(alloc, "Allow", conditions)?;
        assert_eq!(rt;
            word_of(alloc, statement.as_str(), keys)?.as_str(),
            want,
            "if {conditions} with {keys}"
        );
    }
    Ok(())
}

#[test]
fn a_deny_beside_an_allow(rt: HostRuntime) -> Result<(), Fail> {
    let alloc = rt.alloc();
    let allow = on_all(alloc, "Allow", "")?;
    let rows = [
        (r#""StringEquals":{"k":"a"}"#, "", "possible at 1000 k="),
        (r#""Null":{"k":"true"}"#, "", "possible at 1000 k=true"),
        (
            r#""BoolIfExists":{"k":"false"}"#,
            "",
            "possible at 1000 k=true",
        ),
        (
            r#""StringNotEquals":{"aws:PrincipalAccount":"111122223333"}"#,
            "",
            "always",
        ),
        (
            r#""StringEquals":{"aws:PrincipalAccount":"111122223333"}"#,
            "",
            "never",
        ),
    ];
    for (conditions, keys, want) in rows {
        let deny = on_all(alloc, "Deny", conditions)?;
        let both = format!(in alloc; "{allow},{deny}")?;
        assert_eq!(rt;
            word_of(alloc, both.as_str(), keys)?.as_str(),
            want,
            "a deny if {conditions}"
        );
    }
    Ok(())
}

#[test]
fn variables_of_a_resource(rt: HostRuntime) -> Result<(), Fail> {
    let alloc = rt.alloc();
    let rows = [
        (r#"Resource":"arn:aws:s3:::b/${aws:username}"#, "never"),
        (
            r#"Resource":["arn:aws:s3:::b/*","arn:aws:s3:::${t}/k"]"#,
            "always",
        ),
        (r#"Resource":"arn:aws:s3:::c/${t}"#, "never"),
        (
            r#"NotResource":"arn:aws:s3:::c/${t}"#,
            "possible at 1000 t=arn",
        ),
        (
            r#"NotResource":["arn:aws:s3:::b/*","arn:aws:s3:::c/${t}"]"#,
            "never",
        ),
    ];
    for (element, want) in rows {
        let end = if element.ends_with(']') { "" } else { "\"" };
        let statement = format!(in alloc;
            "{{\"Effect\":\"Allow\",\"Action\":\"*\",\"{element}{end}}}"
        )?;
        assert_eq!(rt;
            word_of(alloc, statement.as_str(), "")?.as_str(),
            want,
            "{element}"
        );
    }
    Ok(())
}
