//! The texts of users, groups, services and roles.
ghost use Rattle.hub_rows.specs.declared.records.User.{User};
ghost use Rattle.record_texts.specs.People.{user_object, group_object, service_object, role_object, IsUser, IsGroup, IsService, IsRole};
ghost use Rattle.record_texts.specs.People.{user_plain, group_plain, service_plain, role_plain};

use crate::field::{bool_at, both, maybe_number_at, number_at, sorted_at, texts_at};
use crate::fields::Fields;
use crate::record::Record;
use hub_kit::names::{GroupName, RoleName, ServiceName, UserName};
use hub_kit::text::Text;
use hub_rows::records::{Group, Role, Service, User};
use key_texts::textual::Textual;
use key_texts::unread::Unread;
use serde_json::Value;
use std::alloc::{AllocError, Global};

impl Record for User {
    ghost KIND = { 1 };

    const KIND: u8 = 1;

    ghost key_of = { λ u. u.name };

    ghost shape_of = { user_object };

    ghost valid = { IsUser };

    ghost plain = { user_plain };

    fn key(&self, alloc: Global) -> Result<Text, AllocError> {
        self.name.text(alloc)
    }

    fn value(&self, alloc: Global) -> Result<Value, AllocError> {
        let _name = self.name.as_str();
        let fields = Fields::new(alloc)
            .value("admin", Value::from(self.admin))?
            .number("created", self.created.seconds())?
            .maybe_number("last_activity", &self.last_activity)?;
        Ok(fields.into_object())
    }

    fn find(alloc: Global, key: &str, value: &Value) -> Result<User, Unread> {
        let named = both(UserName::of_text(alloc, key), bool_at(value, "admin"));
        let seen = both(
            number_at(value, "created"),
            maybe_number_at(value, "last_activity"),
        );
        let ((name, admin), (created, last_activity)) = both(named, seen)?;
        Ok(User {
            name,
            admin,
            created,
            last_activity,
        })
    }
}

impl Record for Group {
    ghost KIND = { 2 };

    const KIND: u8 = 2;

    ghost key_of = { λ g. g.name };

    ghost shape_of = { group_object };

    ghost valid = { IsGroup };

    ghost plain = { group_plain };

    fn key(&self, alloc: Global) -> Result<Text, AllocError> {
        self.name.text(alloc)
    }

    fn value(&self, alloc: Global) -> Result<Value, AllocError> {
        let _name = self.name.as_str();
        let fields = Fields::new(alloc).texts("users", self.users.as_slice())?;
        Ok(fields.into_object())
    }

    fn find(alloc: Global, key: &str, value: &Value) -> Result<Group, Unread> {
        Ok(Group {
            name: GroupName::of_text(alloc, key)?,
            users: sorted_at(alloc, value, "users")?,
        })
    }
}

impl Record for Service {
    ghost KIND = { 3 };

    const KIND: u8 = 3;

    ghost key_of = { λ v. v.name };

    ghost shape_of = { service_object };

    ghost valid = { IsService };

    ghost plain = { service_plain };

    fn key(&self, alloc: Global) -> Result<Text, AllocError> {
        self.name.text(alloc)
    }

    fn value(&self, alloc: Global) -> Result<Value, AllocError> {
        let _name = self.name.as_str();
        Ok(Fields::new(alloc).into_object())
    }

    fn find(alloc: Global, key: &str, _value: &Value) -> Result<Service, Unread> {
        Ok(Service {
            name: ServiceName::of_text(alloc, key)?,
        })
    }
}

impl Record for Role {
    ghost KIND = { 4 };

    const KIND: u8 = 4;

    ghost key_of = { λ r. r.name };

    ghost shape_of = { role_object };

    ghost valid = { IsRole };

    ghost plain = { role_plain };

    fn key(&self, alloc: Global) -> Result<Text, AllocError> {
        self.name.text(alloc)
    }

    fn value(&self, alloc: Global) -> Result<Value, AllocError> {
        let _name = self.name.as_str();
        let fields = Fields::new(alloc)
            .texts("groups", self.groups.as_slice())?
            .texts("scopes", self.scopes.as_slice())?
            .texts("services", self.services.as_slice())?
            .texts("users", self.users.as_slice())?;
        Ok(fields.into_object())
    }

    fn find(alloc: Global, key: &str, value: &Value) -> Result<Role, Unread> {
        let name = RoleName::of_text(alloc, key);
        let first = both(
            sorted_at(alloc, value, "groups"),
            texts_at(alloc, value, "scopes"),
        );
        let last = both(
            sorted_at(alloc, value, "services"),
            sorted_at(alloc, value, "users"),
        );
        let (name, ((groups, scopes), (services, users))) = both(name, both(first, last))?;
        Ok(Role {
            name,
            groups,
            scopes,
            services,
            users,
        })
    }
}
