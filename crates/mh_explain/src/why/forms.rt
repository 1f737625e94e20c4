//! The words with which trees and events begin, and the form of the list of each.
use mh_json::Word;

/// The words with which trees begin.
pub(crate) const TREE_WORDS: &str =
    "const id op insert drop permute filter return fold guard point ref invoke";

/// The words with which events begin.
pub(crate) const EVENT_WORDS: &str = "call flush target invalidate snapshot offer plan install";

/// Returns whether trees begin with a word.
pub(crate) fn is_tree_word(word: &str) -> bool {
    TREE_WORDS.split(' ').any(|known| known == word)
}

/// Returns the event to write in place of a method of `java.lang.invoke`.
pub(crate) fn java_event(name: &str) -> Option<&'static str> {
    match name {
        "invoke" | "invokeExact" | "invokeWithArguments" => {
            Some(r#"["call",worker,SITE,[VALUE..]]"#)
        }
        "setTarget" => Some(r#"["target",SITE,TREE]"#),
        "invalidateAll" => Some(r#"["invalidate",[POINT..]]"#),
        _ => None,
    }
}

/// Returns the form of a list that begins with this word.
pub(crate) fn form_of(word: Word) -> &'static str {
    match word {
        Word::Const => r#"["const",KIND,VALUE]"#,
        Word::Id => r#"["id",KIND]"#,
        Word::Op => r#"["op",NAME]"#,
        Word::Insert => r#"["insert",TREE,pos,[VALUE..]]"#,
        Word::Drop => r#"["drop",TREE,pos,[KIND..]]"#,
        Word::Permute => r#"["permute",TREE,TYPE,[number..]]"#,
        Word::Filter => r#"["filter",TREE,pos,[TREE or null..]]"#,
        Word::Return => r#"["return",TARGET,FILTER]"#,
        Word::Fold => r#"["fold",TARGET,COMBINER]"#,
        Word::Guard => r#"["guard",TEST,TARGET,FALLBACK]"#,
        Word::Point => r#"["point",NAME,TARGET,FALLBACK]"#,
        Word::Ref => r#"["ref",NAME]"#,
        Word::Invoke => r#"["invoke",SITE]"#,
        Word::Call => r#"["call",worker,SITE,[VALUE..]]"#,
        Word::Flush => r#"["flush",worker]"#,
        Word::Target => r#"["target",SITE,TREE]"#,
        Word::Invalidate => r#"["invalidate",[POINT..]]"#,
        Word::Snapshot => r#"["snapshot"]"#,
        Word::Offer => r#"["offer",n,PLAN]"#,
        Word::Plan => r#"["plan",n]"#,
        Word::Install => r#"["install",m]"#,
    }
}

/// Returns what follows the form of a list that has another number of parts, after a semicolon.
pub(crate) fn hint_of(word: Word) -> &'static str {
    match word {
        Word::Op => r#"; ["insert",["op",NAME],pos,[VALUE..]] binds arguments"#,
        _ => "",
    }
}

/// Returns what to write in place of a name of `java.lang.invoke`, for those that a tree can
/// express, and what to do about those that it cannot.
pub(crate) fn java_form(name: &str) -> Option<&'static str> {
    let name = name.strip_prefix("MethodHandles.").unwrap_or(name);
    Some(match name {
        "insertArguments" => r#"write ["insert",TREE,pos,[VALUE..]]"#,
        "dropArguments" => r#"write ["drop",TREE,pos,[KIND..]]"#,
        "permuteArguments" => r#"write ["permute",TREE,TYPE,[number..]]"#,
        "filterArguments" => r#"write ["filter",TREE,pos,[TREE or null..]]"#,
        "filterReturnValue" => r#"write ["return",TARGET,FILTER]"#,
        "foldArguments" => r#"write ["fold",TARGET,COMBINER]"#,
        "guardWithTest" => r#"write ["guard",TEST,TARGET,FALLBACK]"#,
        "constant" => r#"write ["const",KIND,VALUE]"#,
        "identity" => r#"write ["id",KIND]"#,
        "dynamicInvoker" | "MutableCallSite.dynamicInvoker" => r#"write ["invoke",SITE]"#,
        "SwitchPoint" | "SwitchPoint.guardWithTest" => { r#"write ["point",NAME,TARGET,FALLBACK]"# }
        _ => return other_java_form(name),
    })
}

/// Returns what to do about a name of `java.lang.invoke` for which no tree has a form of its own.
fn other_java_form(name: &str) -> Option<&'static str> {
    Some(match name {
        "zero" | "empty" => r#"write ["const",KIND,VALUE], and ["drop",..] for its parameters"#,
        "asType" | "explicitCastArguments" => {
            r#"there are no conversions but ["op","i2l"] and ["op","l2i"], as filters"#
        }
        "collectArguments" | "asCollector" | "asSpreader" | "asVarargsCollector" => {
            "there are no arrays; a tree has a fixed number of parameters"
        }
        "catchException" | "tryFinally" | "throwException" => "a tree cannot catch exceptions",
        "countedLoop" | "whileLoop" | "iteratedLoop" | "loop" => "a tree cannot loop",
        _ => return None,
    })
}
